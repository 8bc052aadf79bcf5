//! How large the run of a bundle is.
ghost use Rattle.std.specs.Prelude.{◌≡◌, ◌+◌, ◌<◌, ◌^◌, min, map, count_by, sum_by, length, option_to_list, IfOk};
ghost use Rattle.fly_docs.specs.Plans.{nodes_of};
ghost use Rattle.fly_docs.specs.Plans as plans;
ghost use Rattle.fly_docs.specs.Reaching.{primary_place};
ghost use Rattle.fly_links.specs.Reaches.{runs_by_place};
ghost use Rattle.fly_links.specs.Totals.{total_within};
ghost use Rattle.fly_links.specs.RunSize.{IsRunSize};

use crate::Directory;
use crate::layout::nodes_in;
use crate::totals::totals;
use fly_docs::{Node, Target, Workflow};
use fly_types::{List, NoMemory};
use std::alloc::Global;

/// How many levels of workflow nodes a run may have.
const MAX_NESTING: usize = 8;

/// How many nodes a run may have.
const MAX_PLAN: usize = 4096;

/// How many of them may be arrays.
const MAX_ARRAYS: usize = 16;

/// Whether workflow nodes nest too deep, and how many nodes and arrays there are, up to one more than there may be.
#[derive(Debug, Drop)]
pub struct RunSize {
    pub is_deep: bool,
    pub plan: usize,
    pub arrays: usize,
}

/// The size of the run of a bundle's primary workflow.
pub fn run_size(
    alloc: Global,
    directory: &Directory<'_>,
    runs: &[List<usize>],
) -> Result<RunSize, NoMemory>
    requires { runs.now ≡ runs_by_place directory.now }
    ensures { IfOk result (λ size. IsRunSize directory.now size) }
{
    let nodes = node_counts(alloc, directory.bundle().workflows.as_slice())?;
    let arrays = array_counts(alloc, directory.bundle().workflows.as_slice())?;
    let none = vec![in alloc; 0usize; runs.len()]?;
    let one = vec![in alloc; 1usize; runs.len()]?;
    let walks = at_primary(alloc, directory, runs, &none, &one, 1, MAX_NESTING + 1)?;
    let plan = at_primary(
        alloc,
        directory,
        runs,
        &nodes,
        &nodes,
        MAX_PLAN + 1,
        MAX_NESTING,
    )?;
    let arrays = at_primary(
        alloc,
        directory,
        runs,
        &arrays,
        &arrays,
        MAX_ARRAYS + 1,
        MAX_NESTING,
    )?;
    Ok(RunSize {
        is_deep: walks > 0,
        plan,
        arrays,
    })
}

/// The total of the primary workflow, where it is there.
fn at_primary(
    alloc: Global,
    directory: &Directory<'_>,
    runs: &[List<usize>],
    own: &[usize],
    last: &[usize],
    cap: usize,
    levels: usize,
) -> Result<usize, NoMemory>
    requires runs { runs.now ≡ runs_by_place directory.now }
    requires own { length own.now ≡ length runs.now }
    requires last { length last.now ≡ length runs.now }
    requires cap { cap < 2 ^ 32 }
    ensures { IfOk result (λ total. total
        ≡ min (sum_by (total_within levels runs.now own.now last.now) (option_to_list (primary_place directory.now))) cap) }
{
    match directory.workflow_place(&directory.bundle().primary) {
        Some(primary) => {
            let totals = totals(alloc, runs, own, last, cap, levels)?;
            Ok(totals[primary])
        }
        None => Ok(0),
    }
}

/// How many nodes each workflow has.
fn node_counts(alloc: Global, workflows: &[Workflow]) -> Result<Vec<usize>, NoMemory>
    ensures { IfOk result (λ counts. counts.items ≡ map (λ w. length (nodes_of w)) workflows.now) }
{
    let mut counts = Vec::with_capacity(alloc, workflows.len())?;
    for workflow in workflows {
        counts.push(nodes_in(alloc, workflow)?.len())?;
    }
    Ok(counts)
}

/// How many arrays each workflow has.
fn array_counts(alloc: Global, workflows: &[Workflow]) -> Result<Vec<usize>, NoMemory>
    ensures { IfOk result (λ counts. counts.items ≡ map (λ w. count_by plans.is_array (nodes_of w)) workflows.now) }
{
    let mut counts = Vec::with_capacity(alloc, workflows.len())?;
    for workflow in workflows {
        let nodes = nodes_in(alloc, workflow)?;
        counts.push(arrays_in(&nodes))?;
    }
    Ok(counts)
}

fn arrays_in(nodes: &[&Node]) -> usize
    ensures { result ≡ count_by plans.is_array (map (λ n. n.now) nodes.now) }
{
    nodes.iter().filter(|node| is_array(node)).count()
}

fn is_array(node: &Node) -> bool
    ensures { result ≡ plans.is_array node.now }
{
    match &node.target {
        Target::Array { .. } => true,
        _ => false,
    }
}
