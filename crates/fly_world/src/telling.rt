//! Copies of what was read and of what was claimed.
ghost use Rattle.std.specs.Prelude.{◌≡◌, IfOk, OnErr, IsTrue, is_some};
ghost use Rattle.std.specs.Option.{option_copied};
ghost use Rattle.fly_docs.specs.Templates as templates;
ghost use Rattle.fly_world.specs.Called as called;
ghost use Rattle.fly_world.specs.Kept.{IsLaunchedReply};
ghost use Rattle.fly_world.specs.Store.{IsSound};
ghost use Rattle.fly_world.specs.Work as works;

use crate::Work;
use crate::store::Store;
use crate::views::view_at;
use fly_docs::{AttemptName, Task};
use fly_state::{Reply, View};
use fly_types::{List, LiteralMap, NoMemory, Text};
use std::alloc::Global;

/// The view of the version that was read.
pub(crate) fn view_read(store: &Store, reply: &Reply) -> Result<Option<View>, NoMemory>
    requires { IsSound store.now }
    ensures ok { IfOk result (λ v. v ≡ called.view_read store.now.world reply.now) }
    ensures err { OnErr result (IsTrue (is_some (called.view_read store.now.world reply.now))) }
{
    let Reply::Viewed { exec, version, .. } = reply else {
        return Ok(None);
    };
    match store.number_of(exec) {
        Some(number) => view_at(store, number, *version),
        None => Ok(None),
    }
}

/// The work of the attempt that was claimed.
pub(crate) fn work_claimed(store: &Store, reply: &Reply) -> Result<Option<Work>, NoMemory>
    requires { IsLaunchedReply store.now.world reply.now }
    ensures ok { IfOk result (λ w. w ≡ called.work_claimed store.now.plan store.now.world reply.now) }
    ensures err { OnErr result (IsTrue (is_some (called.work_claimed store.now.plan store.now.world reply.now))) }
{
    let Reply::Claimed(name) = reply else {
        return Ok(None);
    };
    let Some(task) = task_of_attempt(store, name) else {
        return Ok(None);
    };
    let alloc = store.alloc();
    let Some(number) = store.attempts().number_of(alloc, name)? else {
        return Ok(None);
    };
    let launch = store.attempts().launched(number);
    Ok(Some(work_for(alloc, name, &launch.inputs, task)?))
}

/// The task that runs in an attempt.
fn task_of_attempt<'s>(store: &'s Store, name: &AttemptName) -> Option<&'s Task>
    ensures { option_copied result ≡ works.task_of_attempt store.now.plan name.now }
{
    let plan = store.plan();
    let _task_nodes = plan.primary();
    match plan.node_at(&name.path) {
        Some(number) => plan.task(number),
        None => None,
    }
}

fn work_for(
    alloc: Global,
    name: &AttemptName,
    inputs: &LiteralMap,
    task: &Task,
) -> Result<Work, NoMemory>
    ensures { IfOk result (λ w. w ≡ works.work_for name.now inputs.now task.now) }
{
    Ok(Work {
        name: name.copy(alloc)?,
        words: words_of(alloc, task)?,
        inputs: inputs.copy(alloc)?,
        outputs: task.interface.outputs.copy(alloc)?,
    })
}

/// The words of a task as they are written.
fn words_of(alloc: Global, task: &Task) -> Result<List<Text>, NoMemory>
    ensures { IfOk result (λ words. words ≡ templates.words_of task.now) }
{
    let mut words = task.command.copy(alloc)?.into_vec();
    for word in task.args.as_slice() {
        words.push(word.copy(alloc)?)?;
    }
    Ok(List::from_vec(words))
}
