ghost use Rattle.std.specs.Prelude.{◌≡◌, ◌≤◌, ◌<◌, length};
ghost use Rattle.fly_state.specs.Plans.{RunPlan};
ghost use Rattle.fly_work.specs.Alone.{Attends, IsWorkOfPlan, Reaches, end_of};
ghost use Rattle.fly_work.specs.Drives.{turn_numbered};
ghost use Rattle.fly_work.specs.Playing.{PlaysTurn, worker_outside};
ghost use Rattle.fly_work.specs.Stages.{Turn};

use crate::asking::ask_all;
use crate::children::run_child;
use crate::closing::close;
use crate::opening::open;
use crate::settling::settle;
use crate::{Keep, KeepFault, TurnEnd};
use fly_ports::{Clock, Gate, Hand, Spawner};
use fly_state::Plan;
use fly_types::NoMemory;
use fly_world::{Work, World};
use std::alloc::Global;

/// The worker that acts alone.
const WORKER: u32 = 0;

/// The entries for which a turn makes room before its first call.
const TURN_ROOM: u64 = 41_000;

/// How far a turn came by its read, its round and its claim.
#[derive(Drop)]
enum Reached {
    /// Every execution is over.
    Idle,
    /// Nothing is there to be run.
    Done,
    /// This work is to be run.
    Claimed(Work),
}

/// Why a turn was broken off.
#[derive(Clone, Copy)]
enum Stop {
    Keep,
    NoMemory,
}

impl From<NoMemory> for Stop {
    ghost use Rattle.fly_work.specs.declared.turn.Stop.TheVariants.{NoMemory as no_memory};

    ghost from_gives = { λ _ stop. stop ≡ no_memory };

    fn from(_: NoMemory) -> Stop {
        Stop::NoMemory
    }
}

impl From<KeepFault> for Stop {
    ghost use Rattle.fly_work.specs.Alone.{stop_for};

    ghost from_gives = { λ fault stop. stop ≡ stop_for fault };

    fn from(fault: KeepFault) -> Stop {
        match fault {
            KeepFault::Failed => Stop::Keep,
            KeepFault::NoMemory => Stop::NoMemory,
        }
    }
}

/// A turn of worker 0, which acts alone on the store: a tick, a sweep, a read, the questions of the round over what was
/// read, its Write, and a claim. What is claimed is run as a child once it was kept, and its end is recorded. What the
/// turn has done is kept again at its end.
pub fn turn_alone<R, K: Keep, S: Spawner, C: Clock, G: Gate>(
    _rt: &R,
    alloc: Global,
    p: &Plan,
    w: &mut World<'_>,
    keep: &mut K,
    hand: &mut Hand<S, C, G>,
    number: u64,
    lag: u32,
) -> TurnEnd
    requires own { w.old.plan ≡ p.now }
    requires some { 0 < length w.old.world.executions }
    requires lag { lag ≤ 16 }
    requires takes { K.takes keep.old p.now }
    ensures plays { PlaysTurn K.kept K.kept_part K.faults
        (turn_numbered (length w.old.world.executions) lag number) w.old w.new
        (worker_outside (C.state hand.old.clock) (S.state hand.old.spawner) keep.old)
        (worker_outside (C.state hand.new.clock) (S.state hand.new.spawner) keep.new) result }
    ensures takes { (plan : RunPlan) → K.takes keep.old plan → K.takes keep.new plan }
{
    match play(alloc, p, w, keep, hand, number, lag) {
        Ok(end) => end,
        Err(Stop::Keep) => TurnEnd::Keep,
        Err(Stop::NoMemory) => TurnEnd::NoMemory,
    }
}

/// The turn, until it ends or is broken off.
fn play<K: Keep, S: Spawner, C: Clock, G: Gate>(
    alloc: Global,
    p: &Plan,
    w: &mut World<'_>,
    keep: &mut K,
    hand: &mut Hand<S, C, G>,
    number: u64,
    lag: u32,
) -> Result<TurnEnd, Stop>
    requires own { w.old.plan ≡ p.now }
    requires some { 0 < length w.old.world.executions }
    requires lag { lag ≤ 16 }
    requires takes { K.takes keep.old p.now }
    ensures plays { PlaysTurn K.kept K.kept_part K.faults
        (turn_numbered (length w.old.world.executions) lag number) w.old w.new
        (worker_outside (C.state hand.old.clock) (S.state hand.old.spawner) keep.old)
        (worker_outside (C.state hand.new.clock) (S.state hand.new.spawner) keep.new) (end_of result) }
    ensures takes { (plan : RunPlan) → K.takes keep.old plan → K.takes keep.new plan }
{
    let first = w.len();
    w.reserve(TURN_ROOM)?;
    let reached = reach(alloc, p, w, &mut hand.clock, &mut hand.gate, number, lag)?;
    keep.keep(alloc, w, first)?;
    match reached {
        Reached::Idle => Ok(TurnEnd::Idle),
        Reached::Done => Ok(TurnEnd::Went),
        Reached::Claimed(work) => {
            attend(alloc, p, w, keep, hand, work)?;
            Ok(TurnEnd::Went)
        }
    }
}

/// The turn up to its claim.
fn reach<C: Clock, G: Gate>(
    alloc: Global,
    p: &Plan,
    w: &mut World<'_>,
    clock: &mut C,
    gate: &mut G,
    number: u64,
    lag: u32,
) -> Result<Reached, NoMemory>
    requires own { w.old.plan ≡ p.now }
    requires some { 0 < length w.old.world.executions }
    requires lag { lag ≤ 16 }
    requires room { 2_053 ≤ w.old.spare }
    ensures { Reaches (turn_numbered (length w.old.world.executions) lag number) w.old w.new
        (C.state clock.old) (C.state clock.new) result }
{
    let executions = u64::from(w.executions());
    let from = number % executions;
    let back = number / executions % (u64::from(lag) + 1);
    let Some(view) = open(p, w, clock, gate, WORKER, from, back)? else {
        return Ok(Reached::Idle);
    };
    let exec = view.name.copy(alloc)?;
    let base = view.version;
    let moves = ask_all(alloc, p, w, WORKER, view)?;
    match close(p, w, gate, WORKER, exec, base, moves)? {
        Some(work) => Ok(Reached::Claimed(work)),
        None => Ok(Reached::Done),
    }
}

/// The turn from its claim on: the child runs, its end is recorded, and what this has added is kept.
fn attend<K: Keep, S: Spawner, C: Clock, G: Gate>(
    alloc: Global,
    p: &Plan,
    w: &mut World<'_>,
    keep: &mut K,
    hand: &mut Hand<S, C, G>,
    work: Work,
) -> Result<(), Stop>
    requires own { w.old.plan ≡ p.now }
    requires of_plan { IsWorkOfPlan p.now work }
    requires room { 2 ≤ w.old.spare }
    requires takes { K.takes keep.old p.now }
    ensures attends { (t : Turn) → t.worker ≡ 0 → Attends K.kept K.kept_part K.faults t work w.old w.new
        (worker_outside (C.state hand.old.clock) (S.state hand.old.spawner) keep.old)
        (worker_outside (C.state hand.new.clock) (S.state hand.new.spawner) keep.new) result }
    ensures takes { (plan : RunPlan) → K.takes keep.old plan → K.takes keep.new plan }
{
    let _task_nodes = p.primary();
    let claimed = w.len();
    let name = work.name.copy(alloc)?;
    let outcome = run_child(alloc, &mut hand.spawner, &work)?;
    settle(w, &mut hand.clock, WORKER, name, outcome)?;
    keep.keep(alloc, w, claimed)?;
    Ok(())
}
