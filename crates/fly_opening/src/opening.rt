//! The store of a run that opens.
ghost use Rattle.std.specs.Prelude.{◌≡◌, ◌<◌, ◌⊎◌, IfOk, OnOk};
ghost use Rattle.fly_state.specs.declared.entries.Reply.TheVariants as replies;
ghost use Rattle.fly_world.specs.Kept.{begun};
ghost use Rattle.fly_opening.specs.Opening.{IsOpened, IsTaken, with_submission};
ghost use Rattle.fly_opening.specs.Submissions.{CanOpen};

use fly_docs::Submission;
use fly_state::{Op, Plan, Reply};
use fly_types::{List, NoMemory};
use fly_world::{Called, World};
use std::alloc::Global;

/// The store of a run that began for the closure of this hash and took the submissions, whose inputs are fitted.
pub fn open_run<'p>(
    alloc: Global,
    p: &'p Plan,
    hash: [u8; 32],
    submissions: List<Submission>,
) -> Result<World<'p>, NoMemory>
    requires { CanOpen p.now submissions }
    ensures { IfOk result (IsOpened p.now hash submissions) }
{
    let mut world = World::begin(alloc, p, hash)?;
    submit_all(&mut world, submissions)?;
    Ok(world)
}

/// Takes the submissions of a run that has begun, in their order.
fn submit_all(world: &mut World<'_>, submissions: List<Submission>) -> Result<(), NoMemory>
    requires begins { world.old ≡ begun world.old.plan world.old.closure }
    requires opens { CanOpen world.old.plan submissions }
    ensures { OnOk result (IsOpened world.old.plan world.old.closure submissions world.new) }
{
    world.reserve(submissions.len() as u64)?;
    for submission in submissions.into_vec() {
        submit(world, submission)?;
    }
    Ok(())
}

/// Takes a submission.
fn submit(world: &mut World<'_>, submission: Submission) -> Result<(), NoMemory>
    requires room { 0 < world.old.spare }
    requires stands { IsTaken world.old.plan world.old.world submission }
    ensures { OnOk result (world.new ≡ with_submission world.old submission) }
{
    let called = world.perform(
        0,
        Op::Submit {
            exec: submission.name,
            inputs: submission.inputs,
        },
    );
    submitted(&called)
}

/// Whether the submission found its memory.
fn submitted(called: &Called) -> Result<(), NoMemory>
    requires { (called.now.reply ≡ replies.Submitted) ⊎ (called.now.reply ≡ replies.NoMemory) }
    ensures { OnOk result (called.now.reply ≡ replies.Submitted) }
{
    match called.reply {
        Reply::Submitted => Ok(()),
        Reply::NoMemory => Err(NoMemory),
        _ => unreachable!(),
    }
}
