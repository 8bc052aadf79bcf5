//! What the nodes of a workflow run, by places.
ghost use Rattle.std.specs.Prelude.{◌≡◌, ◌++◌, map, filter_map, option_and_then, IfOk, OnOk};
ghost use Rattle.fly_docs.specs.Plans.{nodes_of, subworkflow_id};
ghost use Rattle.fly_docs.specs.Reaching as reaching;
ghost use Rattle.fly_docs.specs.Reaching.{run_places, task_id_of};

use crate::Directory;
use crate::layout::nodes_in;
use fly_docs::{Node, Target, Workflow};
use fly_types::{List, NoMemory};
use std::alloc::Global;

/// For each workflow of a bundle, the places of those that its nodes run.
pub fn runs_of(alloc: Global, directory: &Directory<'_>) -> Result<List<List<usize>>, NoMemory>
    ensures { IfOk result (λ runs. runs ≡ map (run_places directory.now) directory.now.workflows) }
{
    let bundle = directory.bundle();
    let workflows = bundle.workflows.as_slice();
    let mut runs = Vec::with_capacity(alloc, workflows.len())?;
    for workflow in workflows {
        runs.push(runs_in(alloc, directory, workflow)?)?;
    }
    Ok(List::from_vec(runs))
}

/// The places of the workflows that the nodes of one run.
fn runs_in<'a>(
    alloc: Global,
    directory: &Directory<'a>,
    workflow: &'a Workflow,
) -> Result<List<usize>, NoMemory>
    ensures { IfOk result (λ places. places ≡ run_places directory.now workflow.now) }
{
    let nodes = nodes_in(alloc, workflow)?;
    let mut places = Vec::new(alloc);
    for node in &nodes {
        if let Some(place) = run_place(directory, node) {
            places.push(place)?;
        }
    }
    Ok(List::from_vec(places))
}

/// The place of the workflow that a node runs.
fn run_place<'a>(directory: &Directory<'a>, node: &'a Node) -> Option<usize>
    ensures { result ≡ option_and_then (reaching.workflow_place directory.now) (subworkflow_id node.now) }
{
    match &node.target {
        Target::Workflow(id) => directory.workflow_place(id),
        _ => None,
    }
}

/// The place of the task that a node runs.
pub fn task_run<'a>(directory: &Directory<'a>, node: &'a Node) -> Option<usize>
    ensures { result ≡ option_and_then (reaching.task_place directory.now) (task_id_of node.now) }
{
    match &node.target {
        Target::Task(id) => directory.task_place(id),
        Target::Array { task, .. } => directory.task_place(task),
        _ => None,
    }
}

/// Appends the places of the tasks that the nodes of a workflow run.
pub fn push_task_runs<'a>(
    alloc: Global,
    directory: &Directory<'a>,
    workflow: &'a Workflow,
    places: &mut Vec<usize>,
) -> Result<(), NoMemory>
    ensures { OnOk result (places.new.items ≡ places.old.items
        ++ filter_map (λ n. option_and_then (reaching.task_place directory.now) (task_id_of n)) (nodes_of workflow.now)) }
{
    let nodes = nodes_in(alloc, workflow)?;
    for node in &nodes {
        if let Some(place) = task_run(directory, node) {
            places.push(place)?;
        }
    }
    Ok(())
}
