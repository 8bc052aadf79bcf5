//! Which nodes of a workflow go before which.
ghost use Rattle.std.specs.Prelude.{◌≡◌, ◌++◌, map, flat_map, filter, length, IfOk, OnOk};
ghost use Rattle.fly_docs.specs.Plans.{places_of};
ghost use Rattle.fly_docs.specs.Closures as closures;
ghost use Rattle.fly_links.specs.Rows.{row_at};
ghost use Rattle.fly_links.specs.Rows as as_lists;
ghost use Rattle.fly_links.specs.Links as words;

use crate::Layout;
use crate::around::{branches_around, cases_within};
use crate::graph::recursive_marks;
use crate::named::named_rows;
use crate::rows::transposed;
use fly_docs::Workflow;
use fly_types::{List, NoMemory};
use std::alloc::Global;
use std::marker::Model;

/// Which nodes of a workflow go before which, by their places in plan order. A node needs the nodes that it names, its
/// cases, and what the branches around it name. Contracts see the workflow.
#[derive(Drop)]
pub struct Links<'a> {
    workflow: &'a Workflow,
    needed: Vec<List<usize>>,
    needing: Vec<List<usize>>,
}

impl<'a> Model for Links<'a> {
    ghost use Rattle.fly_docs.specs.declared.workflow.Workflow.{Workflow};
    ghost use Rattle.std.specs.Coded.{codes};
    ghost use Rattle.fly_types.specs.contracts.kinds.LiteralType as types;
    ghost use Rattle.fly_types.specs.contracts.literals.Literal as literals;
    ghost use Rattle.fly_types.specs.contracts.literals.Tree as trees;
    ghost use Rattle.fly_exprs.specs.contracts.expr.Expr as exprs;
    ghost use Rattle.fly_docs.specs.contracts.binding.Bound as bounds;
    ghost use Rattle.fly_docs.specs.contracts.node.Node as steps;

    ghost Value = { Workflow };

    ghost coded = { Prim.hlevel (codes, types.the_row.coded, literals.the_row.coded, trees.the_row.coded, exprs.the_row.coded, bounds.the_row.coded, steps.the_row.coded) };

    ghost view = { λ l. l.workflow.now };

    ghost use Rattle.std.specs.Prelude.{◌≡◌, map};
    ghost use Rattle.fly_docs.specs.Plans.{places_of};
    ghost use Rattle.fly_docs.specs.Closures as closures;

    ghost invariant = { λ l.
        (l.needed.items ≡ map (closures.needed_by l.workflow.now) (places_of l.workflow.now))
        × (l.needing.items ≡ map (closures.needing l.workflow.now) (places_of l.workflow.now)) };
}

impl<'a> Links<'a> {
    /// The links of a workflow.
    pub fn of(alloc: Global, layout: &Layout<'a>) -> Result<Links<'a>, NoMemory>
        ensures { IfOk result (λ links. links ≡ layout.now) }
    {
        let needing = needing_rows(alloc, layout)?;
        let needed = transposed(alloc, &needing, layout.nodes().len())?;
        Ok(Links {
            workflow: layout.workflow(),
            needed,
            needing,
        })
    }

    /// The workflow.
    pub fn workflow(&self) -> &'a Workflow
        ensures { result.now ≡ self.now }
    {
        self.workflow
    }

    /// For each node the nodes that it needs, rising.
    pub fn needed_by(&self) -> &[List<usize>]
        ensures { result.now ≡ map (closures.needed_by self.now) (places_of self.now) }
    {
        self.needed.as_slice()
    }

    /// For each node the nodes that need it, rising.
    pub fn needing(&self) -> &[List<usize>]
        ensures { result.now ≡ map (closures.needing self.now) (places_of self.now) }
    {
        self.needing.as_slice()
    }

    /// The nodes that need no node, rising.
    pub fn first_places(&self, alloc: Global) -> Result<List<usize>, NoMemory>
        ensures { IfOk result (λ places. places ≡ closures.first_places self.now) }
    {
        empty_places(alloc, &self.needed)
    }

    /// The nodes that no node needs, rising.
    pub fn last_places(&self, alloc: Global) -> Result<List<usize>, NoMemory>
        ensures { IfOk result (λ places. places ≡ closures.last_places self.now) }
    {
        empty_places(alloc, &self.needing)
    }

    /// The nodes that need themselves, through however many others, rising. More nodes than 32 bits can number are
    /// wanting memory.
    pub fn cyclic_places(&self, alloc: Global) -> Result<List<usize>, NoMemory>
        ensures { IfOk result (λ places. places ≡ words.cyclic_places self.now) }
    {
        let marks = recursive_marks(alloc, &self.needing)?;
        marked_places(alloc, &marks)
    }
}

/// For each node the nodes that need it.
fn needing_rows(alloc: Global, layout: &Layout<'_>) -> Result<Vec<List<usize>>, NoMemory>
    ensures { IfOk result (λ rows. rows.items ≡ map (closures.needing layout.now) (places_of layout.now)) }
{
    let count = layout.nodes().len();
    let named = named_rows(alloc, layout)?;
    let naming = transposed(alloc, &named, count)?;
    let names = transposed(alloc, &naming, count)?;
    let around = branches_around(alloc, layout)?;
    let cases = cases_within(alloc, &around)?;
    let joined = joined_rows(alloc, &names, &cases, &around)?;
    transposed(alloc, &joined, count)
}

/// For each place its names, its cases, and the names of the branches around it.
fn joined_rows(
    alloc: Global,
    names: &[List<usize>],
    cases: &[List<usize>],
    around: &[List<usize>],
) -> Result<Vec<List<usize>>, NoMemory>
    ensures { IfOk result (λ rows. rows.items ≡ words.joined_rows names.now cases.now around.now) }
{
    let mut rows = Vec::with_capacity(alloc, names.len())?;
    for place in 0..names.len() {
        rows.push(joined_row(alloc, names, cases, around, place)?)?;
    }
    Ok(rows)
}

fn joined_row(
    alloc: Global,
    names: &[List<usize>],
    cases: &[List<usize>],
    around: &[List<usize>],
    place: usize,
) -> Result<List<usize>, NoMemory>
    ensures { IfOk result (λ row. row ≡ words.joined_row names.now cases.now around.now place) }
{
    let mut row = Vec::new(alloc);
    push_row(names, place, &mut row)?;
    push_row(cases, place, &mut row)?;
    if let Some(branches) = around.get(place) {
        push_rows(names, branches.as_slice(), &mut row)?;
    }
    Ok(List::from_vec(row))
}

fn push_rows(
    rows: &[List<usize>],
    places: &[usize],
    joined: &mut Vec<usize>,
) -> Result<(), NoMemory>
    ensures { OnOk result (joined.new.items ≡ joined.old.items ++ flat_map (row_at rows.now) places.now) }
{
    for place in places {
        push_row(rows, *place, joined)?;
    }
    Ok(())
}

fn push_row(rows: &[List<usize>], place: usize, joined: &mut Vec<usize>) -> Result<(), NoMemory>
    ensures { OnOk result (joined.new.items ≡ joined.old.items ++ row_at rows.now place) }
{
    if let Some(row) = rows.get(place) {
        joined.extend_from_slice(row.as_slice())?;
    }
    Ok(())
}

/// The places of the rows that have nothing.
fn empty_places(alloc: Global, rows: &[List<usize>]) -> Result<List<usize>, NoMemory>
    ensures { IfOk result (λ places. places ≡ words.empty_places rows.now) }
{
    let mut places = Vec::new(alloc);
    for (place, row) in rows.iter().enumerate() {
        if row.is_empty() {
            places.push(place)?;
        }
    }
    Ok(List::from_vec(places))
}

/// The places that are marked.
fn marked_places(alloc: Global, marks: &[bool]) -> Result<List<usize>, NoMemory>
    ensures { IfOk result (λ places. places ≡ words.marked_places marks.now) }
{
    let mut places = Vec::new(alloc);
    for (place, mark) in marks.iter().enumerate() {
        if *mark {
            places.push(place)?;
        }
    }
    Ok(List::from_vec(places))
}
