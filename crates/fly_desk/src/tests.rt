ghost use Rattle.std.specs.Prelude.{◌≡◌, ℕ, ◌*◌, ◌<◌, ◌^◌, [], List, IfOk};
ghost use Rattle.fly_desk.specs.Pass.{IsOf, IsNew};
ghost use Rattle.fly_desk.specs.Workers.{IsWorkOf};

use crate::{Annals, Desk, Pass, StartFault};
use fly_types::NoMemory;
use log::{Log, Plan};
use std::alloc::Global;
use std::sync::Wait;
use std::test::Fail;
use std::thread::Threads;
use std::time::Clock;
use workers::{gather, hire, turn, work_all};

mod log;
mod workers;

// How many turns each of four workers takes.
const TURNS: u64 = 3000;

// Starts a desk over an empty log with room for the calls.
fn start_log<'p>(
    alloc: Global,
    plan: &'p Plan,
    calls: u64,
) -> Result<(Desk<Log<'p>>, Pass<Log<'p>>), NoMemory>
    ensures desk { IfOk result (λ t. IsOf t.0 t.1) }
    ensures pass { IfOk result (λ t. IsNew t.1 [] plan.now calls) }
{
    let marks = Vec::with_capacity(alloc, calls as usize)?;
    match Desk::start(alloc, Log { plan, marks }, calls) {
        Ok(made) => Ok(made),
        Err(StartFault::NoMemory(_)) => Err(NoMemory),
    }
}

// Runs so many workers over an empty log, each for so many turns, and says whether those who had to wait did.
fn run<'p, R: Threads + Wait + Clock + Sync>(
    rt: &R,
    alloc: Global,
    plan: &'p Plan,
    workers: u32,
    turns: u64,
) -> Result<(Log<'p>, bool), NoMemory>
    requires { workers * turns < 2 ^ 64 }
    ensures plan { IfOk result (λ t. t.0.plan.now ≡ plan.now) }
    ensures work { IfOk result (λ t. (parts : List (List (ℕ × (ℕ × ℕ)))) × IsWorkOf workers turns t.0.marks.items parts) }
{
    let (desk, mut pass) = start_log(alloc, plan, u64::from(workers) * turns)?;
    let mut jobs = hire(alloc, &desk, &mut pass, workers, turns)?;
    work_all(rt, &desk, &mut jobs);
    let met = jobs.iter().all(|job| job.met);
    gather(&desk, &mut pass, jobs);
    Ok((desk.close(pass), met))
}

#[test]
fn desk_of_four_calls(rt: HostRuntime) -> Result<(), Fail> {
    let plan = Plan { tasks: 7 };
    let (desk, mut pass) = start_log(rt.alloc(), &plan, 4)?;
    turn(&rt, &desk, &mut pass, (0, 0), 0);
    turn(&rt, &desk, &mut pass, (0, 1), 0);
    assert_eq!(rt; pass.left(), 2);
    let other = pass.split(&desk, 1)?;
    assert_eq!(rt; pass.left(), 1);
    assert_eq!(rt; other.left(), 1);
    pass.join(&desk, other);
    assert_eq!(rt; pass.left(), 2);
    let log = desk.close(pass);
    assert_eq!(rt; log.marks.as_slice(), [(0, 0), (0, 1)].as_slice());
    assert_eq!(rt; log.count(), 2);
    assert_eq!(rt; log.room(), 2);
    Ok(())
}

#[test]
fn four_workers_share_one_log(rt: HostRuntime) -> Result<(), Fail> {
    let plan = Plan { tasks: 7 };
    let (log, met) = run(&rt, rt.alloc(), &plan, 4, TURNS)?;
    assert!(rt; met);
    assert_eq!(rt; log.plan.tasks, 7);
    assert_eq!(rt; log.count(), 4 * TURNS);
    Ok(())
}
