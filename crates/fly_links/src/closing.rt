//! The closure that a bundle compiles to.
ghost use Rattle.std.specs.Prelude.{◌≡◌, ◌∷◌, map, IfOk};
ghost use Rattle.fly_docs.specs.Reaching as reaching;
ghost use Rattle.fly_docs.specs.Closures as closures;

use crate::connecting::connections;
use crate::tables::is_at;
use crate::{Directory, Layout, Reach};
use fly_docs::{Closure, Connections, Task, Workflow};
use fly_types::{List, NoMemory};
use std::alloc::Global;

/// The closure of a bundle: copies of the primary workflow, of the others that it reaches and of the tasks that these run,
/// in the order of the bundle, with the connections of each workflow. None where the primary workflow isn't there.
pub fn closure_of(
    alloc: Global,
    directory: &Directory<'_>,
    reach: &Reach<'_>,
) -> Result<Option<Closure>, NoMemory>
    requires { reach.now ≡ directory.now }
    ensures { IfOk result (λ closure. closure ≡ closures.closure_of directory.now) }
{
    match directory.primary() {
        Some(primary) => Ok(Some(closure_with(alloc, directory, reach, primary)?)),
        None => Ok(None),
    }
}

fn closure_with(
    alloc: Global,
    directory: &Directory<'_>,
    reach: &Reach<'_>,
    primary: &Workflow,
) -> Result<Closure, NoMemory>
    requires { reach.now ≡ directory.now }
    ensures { IfOk result (λ closure. closure ≡ closures.closure_with directory.now primary.now) }
{
    let others = other_workflows(alloc, directory, reach)?;
    Ok(Closure {
        primary: primary.copy(alloc)?,
        subs: copies(alloc, &others)?,
        tasks: task_copies(alloc, reach.tasks())?,
        connections: all_connections(alloc, primary, &others)?,
    })
}

/// The reached workflows but the primary.
fn other_workflows<'a>(
    alloc: Global,
    directory: &Directory<'_>,
    reach: &Reach<'a>,
) -> Result<Vec<&'a Workflow>, NoMemory>
    requires { reach.now ≡ directory.now }
    ensures { IfOk result (λ others. map (λ w. w.now) others.items ≡ reaching.other_workflows directory.now) }
{
    let primary = directory.workflow_place(&directory.bundle().primary);
    let workflows = reach.workflows();
    let mut others = Vec::new(alloc);
    for (place, workflow) in workflows {
        if !is_at(primary, *place) {
            others.push(*workflow)?;
        }
    }
    Ok(others)
}

fn copies(alloc: Global, workflows: &[&Workflow]) -> Result<List<Workflow>, NoMemory>
    ensures { IfOk result (λ copies. copies ≡ map (λ w. w.now) workflows.now) }
{
    let mut copies = Vec::with_capacity(alloc, workflows.len())?;
    for workflow in workflows {
        copies.push(workflow.copy(alloc)?)?;
    }
    Ok(List::from_vec(copies))
}

fn task_copies(alloc: Global, tasks: &[(usize, &Task)]) -> Result<List<Task>, NoMemory>
    ensures { IfOk result (λ copies. copies ≡ map (λ at. at.1.now) tasks.now) }
{
    let mut copies = Vec::with_capacity(alloc, tasks.len())?;
    for (_, task) in tasks {
        copies.push(task.copy(alloc)?)?;
    }
    Ok(List::from_vec(copies))
}

fn all_connections(
    alloc: Global,
    primary: &Workflow,
    others: &[&Workflow],
) -> Result<List<Connections>, NoMemory>
    ensures { IfOk result (λ all. all ≡ map closures.connections_of (primary.now ∷ map (λ w. w.now) others.now)) }
{
    let mut all = Vec::new(alloc);
    all.push(connections_in(alloc, primary)?)?;
    for workflow in others {
        all.push(connections_in(alloc, workflow)?)?;
    }
    Ok(List::from_vec(all))
}

fn connections_in(alloc: Global, workflow: &Workflow) -> Result<Connections, NoMemory>
    ensures { IfOk result (λ connections. connections ≡ closures.connections_of workflow.now) }
{
    let layout = Layout::of(alloc, workflow)?;
    connections(alloc, &layout)
}
