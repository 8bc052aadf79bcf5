//! The nodes of a workflow in plan order.
ghost use Rattle.std.specs.Prelude.{◌≡◌, ◌<◌, ◌∷◌, ◌++◌, map, flat_map, length, IfOk, OnOk};
ghost use Rattle.std.specs.Option.{option_copied};
ghost use Rattle.fly_docs.specs.Plans as plans;
ghost use Rattle.fly_docs.specs.Plans.{nodes_of, inner_nodes, node_named, place_named};
ghost use Rattle.fly_links.specs.Layout.{is_repeated_at, case_node, inside};

use crate::tables::{first_places, is_at};
use fly_docs::{Case, Node, Target, Workflow};
use fly_types::{NoMemory, Text};
use std::alloc::Global;
use std::collections::BTreeMap;
use std::marker::Model;

/// The nodes of a workflow with the case nodes of its branches, in plan order, found by their places and by their ids.
/// Of two nodes with one id the first is found. A look-up takes no memory. Contracts see the workflow.
#[derive(Drop)]
pub struct Layout<'a> {
    workflow: &'a Workflow,
    nodes: Vec<&'a Node>,
    places: BTreeMap<&'a str, usize>,
}

impl<'a> Model for Layout<'a> {
    ghost use Rattle.fly_docs.specs.declared.workflow.Workflow.{Workflow};
    ghost use Rattle.std.specs.Coded.{codes};
    ghost use Rattle.fly_types.specs.contracts.kinds.LiteralType as types;
    ghost use Rattle.fly_types.specs.contracts.literals.Literal as literals;
    ghost use Rattle.fly_types.specs.contracts.literals.Tree as trees;
    ghost use Rattle.fly_exprs.specs.contracts.expr.Expr as exprs;
    ghost use Rattle.fly_docs.specs.contracts.binding.Bound as bounds;
    ghost use Rattle.fly_docs.specs.contracts.node.Node as steps;

    ghost Value = { Workflow };

    ghost coded = { Prim.hlevel (codes, types.the_row.coded, literals.the_row.coded, trees.the_row.coded, exprs.the_row.coded, bounds.the_row.coded, steps.the_row.coded) };

    ghost view = { λ l. l.workflow.now };

    ghost use Rattle.std.specs.Prelude.{◌≡◌, map};
    ghost use Rattle.fly_docs.specs.Plans.{nodes_of};
    ghost use Rattle.fly_links.specs.Tables.{HasNodePlaces};

    ghost invariant = { λ l. (map (λ n. n.now) l.nodes.items ≡ nodes_of l.workflow.now) × HasNodePlaces l.workflow.now l.places };
}

impl<'a> Layout<'a> {
    /// The layout of a workflow.
    pub fn of(alloc: Global, workflow: &'a Workflow) -> Result<Layout<'a>, NoMemory>
        ensures { IfOk result (λ layout. layout ≡ workflow.now) }
    {
        let nodes = nodes_in(alloc, workflow)?;
        let ids = ids_of(alloc, &nodes)?;
        Ok(Layout {
            workflow,
            nodes,
            places: first_places(alloc, &ids)?,
        })
    }

    /// The workflow.
    pub fn workflow(&self) -> &'a Workflow
        ensures { result.now ≡ self.now }
    {
        self.workflow
    }

    /// The nodes in plan order: each in the order of the document, and behind a branch those inside it.
    pub fn nodes(&self) -> &[&'a Node]
        ensures { map (λ n. n.now) result.now ≡ nodes_of self.now }
    {
        self.nodes.as_slice()
    }

    /// The node at a place.
    pub fn node_at(&self, place: usize) -> Option<&'a Node>
        ensures { option_copied result ≡ plans.node_at self.now place }
    {
        self.nodes.get(place).copied()
    }

    /// The place of the node that an id names.
    pub fn place(&self, id: &Text) -> Option<usize>
        ensures { result ≡ place_named self.now id.now }
    {
        self.places.get(id.as_str()).copied()
    }

    /// The node that an id names.
    pub fn node(&self, id: &Text) -> Option<&'a Node>
        ensures { option_copied result ≡ node_named self.now id.now }
    {
        match self.place(id) {
            Some(place) => self.nodes.get(place).copied(),
            None => None,
        }
    }

    /// Whether an earlier node has the id of the one at this place.
    pub fn is_repeated(&self, place: usize) -> bool
        requires { place < length (nodes_of self.now) }
        ensures { result ≡ is_repeated_at self.now place }
    {
        !is_at(self.place(&self.nodes[place].id), place)
    }
}

/// The nodes of a workflow in plan order.
pub fn nodes_in<'a>(alloc: Global, workflow: &'a Workflow) -> Result<Vec<&'a Node>, NoMemory>
    ensures { IfOk result (λ nodes. map (λ n. n.now) nodes.items ≡ nodes_of workflow.now) }
{
    let mut nodes = Vec::new(alloc);
    push_nodes(workflow.nodes.as_slice(), &mut nodes)?;
    Ok(nodes)
}

fn ids_of<'a>(alloc: Global, nodes: &[&'a Node]) -> Result<Vec<&'a str>, NoMemory>
    ensures { IfOk result (λ ids. map (λ i. i.now) ids.items ≡ map (λ n. n.id) (map (λ n. n.now) nodes.now)) }
{
    let mut ids = Vec::with_capacity(alloc, nodes.len())?;
    for node in nodes {
        ids.push(node.id.as_str())?;
    }
    Ok(ids)
}

/// Appends nodes, each followed by those inside it.
fn push_nodes<'a>(nodes: &'a [Node], laid: &mut Vec<&'a Node>) -> Result<(), NoMemory>
    ensures { OnOk result (map (λ n. n.now) laid.new.items
        ≡ map (λ n. n.now) laid.old.items ++ flat_map (λ n. n ∷ inner_nodes n) nodes.now) }
{
    for node in nodes {
        push_node(node, laid)?;
    }
    Ok(())
}

#[cycle(laying)]
fn push_node<'a>(node: &'a Node, laid: &mut Vec<&'a Node>) -> Result<(), NoMemory>
    ensures { OnOk result (map (λ n. n.now) laid.new.items
        ≡ map (λ n. n.now) laid.old.items ++ node.now ∷ inner_nodes node.now) }
{
    laid.push(node)?;
    push_inside(&node.target, laid)
}

/// Appends the nodes inside a branch.
#[cycle(laying)]
pub fn push_inside<'a>(target: &'a Target, laid: &mut Vec<&'a Node>) -> Result<(), NoMemory>
    ensures { OnOk result (map (λ n. n.now) laid.new.items
        ≡ map (λ n. n.now) laid.old.items ++ inside target.now) }
{
    if let Target::Branch {
        cases,
        otherwise,
        ..
    } = target
    {
        push_cases(cases.as_slice(), laid)?;
        if let Some(node) = otherwise {
            push_node(node.get(), laid)?;
        }
    }
    Ok(())
}

#[cycle(laying)]
fn push_cases<'a>(cases: &'a [Case], laid: &mut Vec<&'a Node>) -> Result<(), NoMemory>
    ensures { OnOk result (map (λ n. n.now) laid.new.items
        ≡ map (λ n. n.now) laid.old.items ++ flat_map (λ c. case_node c ∷ inner_nodes (case_node c)) cases.now) }
{
    for case in cases {
        push_node(&case.then, laid)?;
    }
    Ok(())
}
