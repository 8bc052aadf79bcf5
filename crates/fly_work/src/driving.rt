ghost use Rattle.std.specs.Prelude.{◌≡◌, ◌≤◌, ◌<◌, ◌+◌, ◌*◌, ◌^◌, length, None};
ghost use Rattle.fly_state.specs.Plans.{RunPlan};
ghost use Rattle.fly_world.specs.World.{unsettled};
ghost use Rattle.fly_work.specs.Playing.{worker_outside};
ghost use Rattle.fly_work.specs.Drives.{DrivesAlone, IsUncached};
ghost use Rattle.fly_work.specs.Passes.{MakesPass};

use crate::{Keep, Steps, TurnEnd, turn_alone};
use fly_ports::{Clock, Gate, Hand, Spawner};
use fly_state::Plan;
use fly_world::World;
use std::alloc::Global;
use std::sync::ledger::Ledger;

/// Why a run was not driven to its end.
#[derive(Clone, Copy, Debug, PartialEq, Eq)]
pub enum DriveFault {
    /// What was done could not be kept.
    Keep,
    NoMemory,
}

/// Drives a run to its end by the turns of worker 0, which acts alone on the store. It looks back at most `lag`
/// versions. Counts a step for each pass, which is a turn for each execution.
pub fn drive_alone<R, K: Keep, S: Spawner, C: Clock, G: Gate, L: Ledger>(
    rt: &R,
    alloc: Global,
    p: &Plan,
    w: &mut World<'_>,
    keep: &mut K,
    hand: &mut Hand<S, C, G>,
    lag: u32,
    steps: &mut Steps<L>,
) -> Result<(), DriveFault>
    requires own { w.old.plan ≡ p.now }
    requires some { 0 < length w.old.world.executions }
    requires lag { lag ≤ 16 }
    requires takes { K.takes keep.old p.now }
    requires settled { unsettled w.old.world ≡ None }
    requires uncached { IsUncached p.now }
    ensures drives { DrivesAlone K.kept K.kept_part K.faults lag w.old w.new
        (worker_outside (C.state hand.old.clock) (S.state hand.old.spawner) keep.old)
        (worker_outside (C.state hand.new.clock) (S.state hand.new.spawner) keep.new) steps.old steps.new result }
    ensures takes { (plan : RunPlan) → K.takes keep.old plan → K.takes keep.new plan }
{
    // What is known of the store and of the plan: by it there is a bound to the passes.
    w.legal_journal();
    p.primary();
    let mut first = 0;
    loop {
        steps.tick();
        if let Some(end) = pass(rt, alloc, p, w, keep, hand, first, lag) {
            return end;
        }
        first += u64::from(w.executions());
    }
}

/// One pass: a turn for each execution, of this number and on. Answers how the drive ended, where a turn ended it.
fn pass<R, K: Keep, S: Spawner, C: Clock, G: Gate>(
    rt: &R,
    alloc: Global,
    p: &Plan,
    w: &mut World<'_>,
    keep: &mut K,
    hand: &mut Hand<S, C, G>,
    first: u64,
    lag: u32,
) -> Option<Result<(), DriveFault>>
    requires own { w.old.plan ≡ p.now }
    requires some { 0 < length w.old.world.executions }
    requires lag { lag ≤ 16 }
    requires takes { K.takes keep.old p.now }
    requires settled { unsettled w.old.world ≡ None }
    requires uncached { IsUncached p.now }
    requires later { 3 * first ≤ length w.old.world.entries }
    ensures passes { MakesPass K.kept K.kept_part K.faults lag first w.old w.new
        (worker_outside (C.state hand.old.clock) (S.state hand.old.spawner) keep.old)
        (worker_outside (C.state hand.new.clock) (S.state hand.new.spawner) keep.new) result }
    ensures takes { (plan : RunPlan) → K.takes keep.old plan → K.takes keep.new plan }
    ensures fits { first + length w.old.world.executions < 2 ^ 64 }
{
    w.legal_journal();
    p.primary();
    // There are more entries than turns so far, so that the numbers of the turns fit.
    let _entries = w.len();
    for number in first..first + u64::from(w.executions()) {
        match turn_alone(rt, alloc, p, w, keep, hand, number, lag) {
            TurnEnd::Went => {}
            TurnEnd::Idle => return Some(Ok(())),
            TurnEnd::Spent => unreachable!(),
            TurnEnd::Keep => return Some(Err(DriveFault::Keep)),
            TurnEnd::NoMemory => return Some(Err(DriveFault::NoMemory)),
        }
    }
    None
}
