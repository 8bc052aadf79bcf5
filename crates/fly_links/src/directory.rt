//! The tasks and workflows of a bundle by their ids.
ghost use Rattle.std.specs.Prelude.{◌≡◌, map, IfOk};
ghost use Rattle.std.specs.Option.{option_copied};
ghost use Rattle.fly_docs.specs.Lookups.{task_named, workflow_named, primary_of};
ghost use Rattle.fly_docs.specs.Reaching as reaching;
ghost use Rattle.fly_links.specs.Directory.{task_ids, workflow_ids, repeated_places};
ghost use Rattle.std.specs.BTreeMap.{get};
ghost use Rattle.fly_links.specs.Tables.{key_id, key_cmp, HasFirstPlaces};

use crate::tables::{first_places, is_at};
use fly_docs::{Bundle, Identifier, Task, Workflow};
use fly_types::{List, NoMemory};
use std::alloc::Global;
use std::collections::BTreeMap;
use std::marker::Model;

/// An identifier by its fields.
type Key<'a> = (&'a str, &'a str, &'a str, &'a str);

/// The documents of a bundle, found by their ids. Of two documents with one id the first is found. A look-up takes no
/// memory, and as many comparisons of ids as the number of documents can be halved. Contracts see the bundle.
#[derive(Drop)]
pub struct Directory<'a> {
    bundle: &'a Bundle,
    tasks: BTreeMap<Key<'a>, usize>,
    workflows: BTreeMap<Key<'a>, usize>,
}

impl<'a> Model for Directory<'a> {
    ghost use Rattle.fly_docs.specs.declared.workflow.Bundle.{Bundle};
    ghost use Rattle.std.specs.Coded.{codes};
    ghost use Rattle.fly_types.specs.contracts.kinds.LiteralType as types;
    ghost use Rattle.fly_types.specs.contracts.literals.Literal as literals;
    ghost use Rattle.fly_types.specs.contracts.literals.Tree as trees;
    ghost use Rattle.fly_exprs.specs.contracts.expr.Expr as exprs;
    ghost use Rattle.fly_docs.specs.contracts.binding.Bound as bounds;
    ghost use Rattle.fly_docs.specs.contracts.node.Node as steps;

    ghost Value = { Bundle };

    ghost coded = { Prim.hlevel (codes, types.the_row.coded, literals.the_row.coded, trees.the_row.coded, exprs.the_row.coded, bounds.the_row.coded, steps.the_row.coded) };

    ghost view = { λ d. d.bundle.now };

    ghost use Rattle.fly_links.specs.Tables.{AreTables};

    ghost invariant = { λ d. AreTables d.bundle.now d.tasks d.workflows };
}

impl<'a> Directory<'a> {
    /// The directory of a bundle.
    pub fn of(alloc: Global, bundle: &'a Bundle) -> Result<Directory<'a>, NoMemory>
        ensures { IfOk result (λ directory. directory ≡ bundle.now) }
    {
        let task_keys = keys_of_tasks(alloc, bundle.tasks.as_slice())?;
        let workflow_keys = keys_of_workflows(alloc, bundle.workflows.as_slice())?;
        Ok(Directory {
            bundle,
            tasks: first_places(alloc, &task_keys)?,
            workflows: first_places(alloc, &workflow_keys)?,
        })
    }

    /// The bundle.
    pub fn bundle(&self) -> &'a Bundle
        ensures { result.now ≡ self.now }
    {
        self.bundle
    }

    /// The place of the task that an id names.
    pub fn task_place(&self, id: &'a Identifier) -> Option<usize>
        ensures { result ≡ reaching.task_place self.now id.now }
    {
        found(&self.tasks, key_of(id))
    }

    /// The place of the workflow that an id names.
    pub fn workflow_place(&self, id: &'a Identifier) -> Option<usize>
        ensures { result ≡ reaching.workflow_place self.now id.now }
    {
        found(&self.workflows, key_of(id))
    }

    /// The task that an id names.
    pub fn task(&self, id: &'a Identifier) -> Option<&'a Task>
        ensures { option_copied result ≡ task_named self.now id.now }
    {
        let tasks: &'a List<Task> = &self.bundle.tasks;
        match self.task_place(id) {
            Some(place) => tasks.get(place),
            None => None,
        }
    }

    /// The workflow that an id names.
    pub fn workflow(&self, id: &'a Identifier) -> Option<&'a Workflow>
        ensures { option_copied result ≡ workflow_named self.now id.now }
    {
        let workflows: &'a List<Workflow> = &self.bundle.workflows;
        match self.workflow_place(id) {
            Some(place) => workflows.get(place),
            None => None,
        }
    }

    /// The workflow that is run.
    pub fn primary(&self) -> Option<&'a Workflow>
        ensures { option_copied result ≡ primary_of self.now }
    {
        self.workflow(&self.bundle.primary)
    }

    /// The places of the tasks whose id an earlier task has, rising.
    pub fn repeated_tasks(&self, alloc: Global) -> Result<List<usize>, NoMemory>
        ensures { IfOk result (λ places. places ≡ repeated_places (task_ids self.now)) }
    {
        let keys = keys_of_tasks(alloc, self.bundle.tasks.as_slice())?;
        repeated_in(alloc, &self.tasks, &keys)
    }

    /// The places of the workflows whose id an earlier workflow has, rising.
    pub fn repeated_workflows(&self, alloc: Global) -> Result<List<usize>, NoMemory>
        ensures { IfOk result (λ places. places ≡ repeated_places (workflow_ids self.now)) }
    {
        let keys = keys_of_workflows(alloc, self.bundle.workflows.as_slice())?;
        repeated_in(alloc, &self.workflows, &keys)
    }
}

fn key_of(id: &Identifier) -> Key<'_>
    ensures { key_id result ≡ id.now }
{
    (
        id.project.as_str(),
        id.domain.as_str(),
        id.name.as_str(),
        id.version.as_str(),
    )
}

fn keys_of_tasks(alloc: Global, tasks: &[Task]) -> Result<Vec<Key<'_>>, NoMemory>
    ensures { IfOk result (λ keys. map key_id keys.items ≡ map (λ t. t.id) tasks.now) }
{
    let mut keys = Vec::with_capacity(alloc, tasks.len())?;
    for task in tasks {
        keys.push(key_of(&task.id))?;
    }
    Ok(keys)
}

fn keys_of_workflows(alloc: Global, workflows: &[Workflow]) -> Result<Vec<Key<'_>>, NoMemory>
    ensures { IfOk result (λ keys. map key_id keys.items ≡ map (λ w. w.id) workflows.now) }
{
    let mut keys = Vec::with_capacity(alloc, workflows.len())?;
    for workflow in workflows {
        keys.push(key_of(&workflow.id))?;
    }
    Ok(keys)
}

fn found<'k>(table: &BTreeMap<Key<'k>, usize>, key: Key<'k>) -> Option<usize>
    ensures { result ≡ get key_cmp table.now key.entry }
{
    table.get(&key).copied()
}

/// The places of the keys that stand before, by a table of the first places of them all.
fn repeated_in<'k>(
    alloc: Global,
    table: &BTreeMap<Key<'k>, usize>,
    keys: &[Key<'k>],
) -> Result<List<usize>, NoMemory>
    requires { HasFirstPlaces (map key_id keys.now) table.now }
    ensures { IfOk result (λ places. places ≡ repeated_places (map key_id keys.now)) }
{
    let mut repeated = Vec::new(alloc);
    for (place, key) in keys.iter().enumerate() {
        if !is_at(found(table, *key), place) {
            repeated.push(place)?;
        }
    }
    Ok(List::from_vec(repeated))
}
