//! What the primary workflow of a bundle reaches, and how large its run is.
ghost use Rattle.std.specs.Prelude.{◌≡◌, ℕ, ◌+◌, ◌<◌, ◌==◌, false, min, map, length, slice_index_or, IfOk};
ghost use Rattle.std.specs.List.{list_any};
ghost use Rattle.fly_docs.specs.Plans.{plan_of};
ghost use Rattle.fly_docs.specs.Reaching.{reached_places, reached_tasks};
ghost use Rattle.fly_links.specs.Reaches.{runs_by_place, is_reached_place, tasks_run};
ghost use Rattle.fly_links.specs.Reach as reach;

use crate::Directory;
use crate::graph::recursive_marks;
use crate::marks::{both_marked, marks_of, picked};
use crate::run_size::{RunSize, run_size};
use crate::runs::{push_task_runs, runs_of};
use crate::search::reached_from;
use fly_docs::{Bundle, Task, Workflow};
use fly_types::{List, NoMemory};
use std::alloc::Global;
use std::marker::Model;

/// What the primary workflow of a bundle reaches through workflow nodes, and how large its run is. It is computed once,
/// without the run itself, which may be too large to be built. Contracts see the bundle.
#[derive(Drop)]
pub struct Reach<'a> {
    bundle: &'a Bundle,
    workflows: Vec<(usize, &'a Workflow)>,
    tasks: Vec<(usize, &'a Task)>,
    recursive: Vec<(usize, &'a Workflow)>,
    size: RunSize,
}

impl<'a> Model for Reach<'a> {
    ghost use Rattle.fly_docs.specs.declared.workflow.Bundle.{Bundle};
    ghost use Rattle.std.specs.Coded.{codes};
    ghost use Rattle.fly_types.specs.contracts.kinds.LiteralType as types;
    ghost use Rattle.fly_types.specs.contracts.literals.Literal as literals;
    ghost use Rattle.fly_types.specs.contracts.literals.Tree as trees;
    ghost use Rattle.fly_exprs.specs.contracts.expr.Expr as exprs;
    ghost use Rattle.fly_docs.specs.contracts.binding.Bound as bounds;
    ghost use Rattle.fly_docs.specs.contracts.node.Node as steps;

    ghost Value = { Bundle };

    ghost coded = { Prim.hlevel (codes, types.the_row.coded, literals.the_row.coded, trees.the_row.coded, exprs.the_row.coded, bounds.the_row.coded, steps.the_row.coded) };

    ghost view = { λ r. r.bundle.now };

    ghost use Rattle.std.specs.Prelude.{◌≡◌, map};
    ghost use Rattle.fly_docs.specs.Reaching.{reached_places, reached_tasks};
    ghost use Rattle.fly_links.specs.Reach.{recursive_places};
    ghost use Rattle.fly_links.specs.RunSize.{IsRunSize};

    ghost invariant = { λ r.
        (map (λ at. (at.0, at.1.now)) r.workflows.items ≡ reached_places r.bundle.now)
        × (map (λ at. at.1.now) r.tasks.items ≡ reached_tasks r.bundle.now)
        × (map (λ at. (at.0, at.1.now)) r.recursive.items ≡ recursive_places r.bundle.now)
        × IsRunSize r.bundle.now r.size };
}

impl<'a> Reach<'a> {
    /// What the primary workflow of a bundle reaches.
    pub fn of(alloc: Global, directory: &Directory<'a>) -> Result<Reach<'a>, NoMemory>
        ensures { IfOk result (λ reach. reach ≡ directory.now) }
    {
        let bundle = directory.bundle();
        let runs = runs_of(alloc, directory)?;
        let marks = reached_marks(alloc, directory, runs.as_slice())?;
        let workflows = picked(alloc, bundle.workflows.as_slice(), &marks)?;
        let cyclic = recursive_marks(alloc, runs.as_slice())?;
        let both = both_marked(alloc, &marks, &cyclic)?;
        let recursive = picked(alloc, bundle.workflows.as_slice(), &both)?;
        let task_marks = reached_task_marks(alloc, directory, &workflows)?;
        let tasks = picked(alloc, bundle.tasks.as_slice(), &task_marks)?;
        let size = run_size(alloc, directory, runs.as_slice())?;
        Ok(Reach {
            bundle,
            workflows,
            tasks,
            recursive,
            size,
        })
    }

    /// The bundle.
    pub fn bundle(&self) -> &'a Bundle
        ensures { result.now ≡ self.now }
    {
        self.bundle
    }

    /// The workflows that the primary reaches, itself among them, with their places in the bundle, rising.
    pub fn workflows(&self) -> &[(usize, &'a Workflow)]
        ensures { map (λ at. (at.0, at.1.now)) result.now ≡ reached_places self.now }
    {
        self.workflows.as_slice()
    }

    /// The tasks that nodes of these run, with their places in the bundle, rising.
    pub fn tasks(&self) -> &[(usize, &'a Task)]
        ensures { map (λ at. at.1.now) result.now ≡ reached_tasks self.now }
    {
        self.tasks.as_slice()
    }

    /// Those of the reached workflows that reach themselves, with their places in the bundle, rising.
    pub fn recursive(&self) -> &[(usize, &'a Workflow)]
        ensures { map (λ at. (at.0, at.1.now)) result.now ≡ reach.recursive_places self.now }
    {
        self.recursive.as_slice()
    }

    /// Whether workflow nodes nest deeper than they may, from the primary workflow on.
    pub fn nests_too_deep(&self) -> bool
        ensures { result ≡ reach.nests_too_deep self.now }
    {
        self.size.is_deep
    }

    /// How many nodes the run has, up to one more than it may have.
    pub fn plan_size(&self) -> usize
        ensures { result ≡ min (length (plan_of self.now)) (reach.max_plan + 1) }
    {
        self.size.plan
    }

    /// How many of them are arrays, up to one more than may be.
    pub fn array_count(&self) -> usize
        ensures { result ≡ min (reach.array_count self.now) (reach.max_arrays + 1) }
    {
        self.size.arrays
    }
}

/// Which workflows the primary reaches, itself among them.
fn reached_marks(
    alloc: Global,
    directory: &Directory<'_>,
    runs: &[List<usize>],
) -> Result<Vec<bool>, NoMemory>
    requires { runs.now ≡ runs_by_place directory.now }
    ensures len { IfOk result (λ marks. length marks.items ≡ length directory.now.workflows) }
    ensures each { IfOk result (λ marks. (v : ℕ) → v < length directory.now.workflows
        → slice_index_or marks.items v false ≡ is_reached_place directory.now v) }
{
    let bundle = directory.bundle();
    match directory.workflow_place(&bundle.primary) {
        Some(primary) => reached_from(alloc, runs, primary),
        None => Ok(vec![in alloc; false; bundle.workflows.len()]?),
    }
}

/// Which tasks the nodes of these workflows run.
fn reached_task_marks<'a>(
    alloc: Global,
    directory: &Directory<'a>,
    workflows: &[(usize, &'a Workflow)],
) -> Result<Vec<bool>, NoMemory>
    ensures len { IfOk result (λ marks. length marks.items ≡ length directory.now.tasks) }
    ensures each { IfOk result (λ marks. (v : ℕ) → v < length directory.now.tasks → slice_index_or marks.items v false
        ≡ list_any (λ place. place == v) (tasks_run directory.now (map (λ at. at.1.now) workflows.now))) }
{
    let mut places = Vec::new(alloc);
    for (_, workflow) in workflows {
        push_task_runs(alloc, directory, workflow, &mut places)?;
    }
    marks_of(alloc, directory.bundle().tasks.len(), &places)
}
