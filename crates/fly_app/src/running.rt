//! Runs whose files were accepted: opened, driven to their end, and reported.
ghost use Rattle.std.specs.Prelude.{◌≡◌, ◌≤◌, ◌<◌, ℕ, length, None, true, IfOk, MatchResult};
ghost use Rattle.fly_world.specs.World.{are_all_over, unsettled};
ghost use Rattle.fly_work.specs.Drives.{DrivesAlone, IsUncached};
ghost use Rattle.fly_work.specs.Playing.{worker_outside};
ghost use Rattle.fly_opening.specs.Submissions.{CanOpen};
ghost use Rattle.fly_app.specs.RunOutside.{work_outside};
ghost use Rattle.fly_app.specs.Runs.{HasStatus, IsFinished};
ghost use Rattle.fly_app.specs.Running.{DrivesFile, PrintsReport, RunsHaveLaws, StopsRun, setup_with};

use crate::Status;
use crate::printing::{out_of_memory, print};
use fly_docs::Submission;
use fly_history::legal_journals_agree;
use fly_keeper::{FileKeep, keep_journal};
use fly_opening::open_run;
use fly_ports::{Clock, Files, Gate, Hand, Sink, Spawner};
use fly_report::report;
use fly_state::{Phase, Plan};
use fly_types::{List, NoMemory};
use fly_work::{DriveFault, Keep, KeepFault, Steps, drive_alone};
use fly_world::{
    World, final_slots_stay, launches_are_single, legal_prefixes, steps_extend,
    versions_are_shaped, worlds_are_of_plan, writes_are_rounds,
};
use std::alloc::Global;
use std::marker::Brand;
use std::sync::ledger::{Blank, Ledger};

/// What the laws of the store and of plain evaluation say of each run of the plan. The call does nothing.
fn laws_of_runs(plan: &Plan)
    requires { IsUncached plan.now }
    ensures { RunsHaveLaws plan.now }
{
    plan.primary();
    legal_prefixes();
    steps_extend();
    writes_are_rounds();
    launches_are_single();
    worlds_are_of_plan();
    legal_journals_agree();
    final_slots_stay();
}

/// Drives a run that was opened to its end, and counts its passes on a ledger of its own.
fn drive_counted<L: Ledger, R, K: Keep, S: Spawner, C: Clock, G: Gate>(
    rt: &R,
    alloc: Global,
    blank: Blank,
    plan: &Plan,
    world: &mut World<'_>,
    keep: &mut K,
    hand: &mut Hand<S, C, G>,
    lag: u32,
) -> Result<(), DriveFault>
    requires name { blank.name ≡ L.name }
    requires parts { blank.parts ≡ L.parts }
    requires shared { 0 < blank.parts }
    requires own { world.old.plan ≡ plan.now }
    requires some { 0 < length world.old.world.executions }
    requires settled { unsettled world.old.world ≡ None }
    requires uncached { IsUncached plan.now }
    requires lag { lag ≤ 16 }
    requires takes { K.takes keep.old plan.now }
    ensures { (passes : ℕ) × DrivesAlone K.kept K.kept_part K.faults lag world.old world.new
        (worker_outside (C.state hand.old.clock) (S.state hand.old.spawner) keep.old)
        (worker_outside (C.state hand.new.clock) (S.state hand.new.spawner) keep.new) 0 passes result }
{
    let mut steps = Steps::<L>::start(blank);
    drive_alone(rt, alloc, plan, world, keep, hand, lag, &mut steps)
}

/// Drives a run that was opened to its end, and keeps its journal in the file at a path.
fn drive<R, F: Files, S: Spawner, C: Clock, G: Gate>(
    rt: &R,
    alloc: Global,
    plan: &Plan,
    world: &mut World<'_>,
    files: &mut F,
    journal: &str,
    hand: &mut Hand<S, C, G>,
    lag: u32,
) -> Result<(), DriveFault>
    requires own { world.old.plan ≡ plan.now }
    requires some { 0 < length world.old.world.executions }
    requires settled { unsettled world.old.world ≡ None }
    requires uncached { IsUncached plan.now }
    requires lag { lag ≤ 16 }
    ensures { DrivesFile plan.now lag journal.now world.old world.new
        (work_outside (F.state files.old) (C.state hand.old.clock) (S.state hand.old.spawner))
        (work_outside (F.state files.new) (C.state hand.new.clock) (S.state hand.new.spawner)) result }
{
    let mut keep = FileKeep::new(files, journal, plan);
    let end = drive_counted::<Brand, _, _, _, _, _>(
        rt,
        alloc,
        Blank::new(1),
        plan,
        world,
        &mut keep,
        hand,
        lag,
    );
    world.legal_journal();
    end
}

/// Opens a run, keeps the opening, and drives the run to its end. Its journal comes to the end of the file at a path.
/// Answers the store as it is at the end.
pub(crate) fn run_accepted<'p, R, F: Files, S: Spawner, C: Clock, G: Gate>(
    rt: &R,
    alloc: Global,
    plan: &'p Plan,
    hash: [u8; 32],
    submissions: List<Submission>,
    files: &mut F,
    journal: &str,
    hand: &mut Hand<S, C, G>,
    lag: u32,
) -> Result<World<'p>, DriveFault>
    requires opens { CanOpen plan.now submissions }
    requires some { 0 < length submissions }
    requires uncached { IsUncached plan.now }
    requires lag { lag ≤ 16 }
    ensures own { IfOk result (λ w. w.plan ≡ plan.now) }
    ensures runs { MatchResult result
        (λ w. IsFinished (setup_with plan.now hash submissions lag journal.now)
        (work_outside (F.state files.old) (C.state hand.old.clock) (S.state hand.old.spawner))
        (work_outside (F.state files.new) (C.state hand.new.clock) (S.state hand.new.spawner)) w.world)
        (λ fault. StopsRun (setup_with plan.now hash submissions lag journal.now)
        (work_outside (F.state files.old) (C.state hand.old.clock) (S.state hand.old.spawner))
        (work_outside (F.state files.new) (C.state hand.new.clock) (S.state hand.new.spawner)) fault) }
{
    let Ok(mut world) = open_run(alloc, plan, hash, submissions) else {
        return Err(DriveFault::NoMemory);
    };
    laws_of_runs(plan);
    world.legal_journal();
    match keep_journal(alloc, plan, &world, files, journal, 0) {
        Ok(()) => {}
        Err(KeepFault::Failed) => return Err(DriveFault::Keep),
        Err(KeepFault::NoMemory) => return Err(DriveFault::NoMemory),
    }
    match drive(rt, alloc, plan, &mut world, files, journal, hand, lag) {
        Ok(()) => Ok(world),
        Err(fault) => Err(fault),
    }
}

/// The status of a run whose executions are over.
fn status_of(world: &World<'_>) -> Status
    requires { are_all_over world.now.world ≡ true }
    ensures { HasStatus world.now.world result }
{
    world.legal_journal();
    versions_are_shaped();
    for number in 0..world.executions() {
        if world.last(number).root.phase != Phase::Succeeded {
            return Status::Failed;
        }
    }
    Status::Done
}

/// Prints the report of a run whose executions are over.
pub(crate) fn print_report<O: Sink, E: Sink>(
    alloc: Global,
    plan: &Plan,
    world: &World<'_>,
    out: &mut O,
    err: &mut E,
) -> Status
    requires own { world.now.plan ≡ plan.now }
    requires over { are_all_over world.now.world ≡ true }
    ensures { PrintsReport plan.now world.now.world (O.state out.old) (O.state out.new) (E.state err.old)
        (E.state err.new) result }
{
    let Ok(text) = report(alloc, plan, world) else {
        return out_of_memory(err);
    };
    match print(out, err, text.as_bytes()) {
        Status::Done => status_of(world),
        unwritten => unwritten,
    }
}
