//! Workers that share a desk, each with a pass of its own.
ghost use Rattle.std.specs.Prelude.{◌≡◌, ℕ, ◌+◌, ◌*◌, ◌<◌, ◌≤◌, ◌∷◌, ◌++◌, [], All, false, flat_map, length, IfOk, OnOk, slice_index_or, vec_len};
ghost use Rattle.fly_desk.specs.Pass.{IsOf, own, calls_left, is_out, HasSameStart};
ghost use Rattle.fly_desk.specs.Workers.{IsFresh, HasWorked, IsSpent};

use super::log::Marks;
use crate::steps::TICKET;
use crate::{Annals, Desk, Pass};
use fly_types::NoMemory;
use std::alloc::Global;
use std::sync::Wait;
use std::thread;
use std::thread::Threads;
use std::time::{Clock, Duration};

// How often a worker looks whether the others wait.
const LOOKS: u32 = 1_000_000_000;

// How many milliseconds a worker keeps its turn once the others wait, so that they fall asleep.
const NAP: u64 = 20;

/// A worker's pass.
#[derive(Drop)]
pub(super) struct Job<O: Annals> {
    pub(super) pass: Pass<O>,
    pub(super) worker: u32,
    /// Whether each turn that was to be kept was kept long enough.
    pub(super) met: bool,
}

// Waits until so many tickets are drawn, and says whether they were within so many looks.
fn sees_tickets<O: Annals, R: Clock>(rt: &R, desk: &Desk<O>, tickets: u64) -> bool {
    if tickets == 0 {
        return true;
    }
    for _ in 0..LOOKS {
        if desk.table.shared.peek(TICKET) >= tickets {
            thread::sleep(rt, Duration::from_millis(NAP));
            return true;
        }
    }
    false
}

/// One turn: the worker leaves a mark. It keeps the turn until so many tickets are drawn, and says whether they were.
pub(super) fn turn<O: Marks, R: Wait + Clock>(
    rt: &R,
    desk: &Desk<O>,
    pass: &mut Pass<O>,
    mark: (u32, u64),
    tickets: u64,
) -> bool
    requires desk { IsOf desk.now pass.old }
    requires idle { is_out pass.old ≡ false }
    requires left { 0 < calls_left pass.old }
    ensures desk { IsOf desk.now pass.new }
    ensures idle { is_out pass.new ≡ false }
    ensures own { (place : ℕ) × (own pass.new ≡ own pass.old ++ (place, mark) ∷ []) × All (λ call. call.0 < place) (own pass.old) }
    ensures left { calls_left pass.new + 1 ≡ calls_left pass.old }
    ensures start { HasSameStart pass.new pass.old }
{
    let mut turn = desk.enter(rt, pass);
    let met = sees_tickets(rt, desk, tickets);
    turn.object().mark(mark);
    desk.leave(pass, turn);
    met
}

// Leaves a mark at each call of the job. The first turn is kept until all of the crew have drawn.
fn work<O: Marks, R: Wait + Clock>(rt: &R, desk: &Desk<O>, job: &mut Job<O>, crew: u64)
    requires { IsFresh desk.now (calls_left job.old.pass) job.old.pass }
    ensures worker { job.new.worker ≡ job.old.worker }
    ensures pass { HasWorked desk.now job.old.worker (calls_left job.old.pass) job.new.pass }
{
    let calls = job.pass.left();
    for number in 0..calls {
        let tickets = if number == 0 { crew } else { 0 };
        let met = turn(rt, desk, &mut job.pass, (job.worker, number), tickets);
        job.met &= met;
    }
}

/// A job for each worker, each with so many calls of the pass.
pub(super) fn hire<O: Annals>(
    alloc: Global,
    desk: &Desk<O>,
    pass: &mut Pass<O>,
    workers: u32,
    calls: u64,
) -> Result<Vec<Job<O>>, NoMemory>
    requires desk { IsOf desk.now pass.old }
    requires idle { is_out pass.old ≡ false }
    requires calls { workers * calls ≤ calls_left pass.old }
    ensures desk { IsOf desk.now pass.new }
    ensures idle { is_out pass.new ≡ false }
    ensures own { own pass.new ≡ own pass.old }
    ensures left { OnOk result (calls_left pass.new + workers * calls ≡ calls_left pass.old) }
    ensures start { HasSameStart pass.new pass.old }
    ensures number { IfOk result (λ jobs. vec_len jobs ≡ workers) }
    ensures jobs { IfOk result (λ jobs. (i : ℕ) (d : _) → i < vec_len jobs → ((slice_index_or jobs.items i d).worker ≡ i) × IsFresh desk.now calls (slice_index_or jobs.items i d).pass) }
{
    let mut jobs = Vec::with_capacity(alloc, workers as usize)?;
    for worker in 0..workers {
        let pass = pass.split(desk, calls)?;
        jobs.push_reserved(Job {
            pass,
            worker,
            met: true,
        });
    }
    Ok(jobs)
}

/// Runs all jobs, in at most eight threads.
pub(super) fn work_all<O: Marks + Send, R: Threads + Wait + Clock + Sync>(
    rt: &R,
    desk: &Desk<O>,
    jobs: &mut [Job<O>],
)
    requires { (i : ℕ) (d : _) → i < length jobs.old → IsFresh desk.now (calls_left (slice_index_or jobs.old i d).pass) (slice_index_or jobs.old i d).pass }
    ensures number { length jobs.new ≡ length jobs.old }
    ensures workers { (i : ℕ) (d : _) → i < length jobs.old → (slice_index_or jobs.new i d).worker ≡ (slice_index_or jobs.old i d).worker }
    ensures passes { (i : ℕ) (d : _) → i < length jobs.old → HasWorked desk.now (slice_index_or jobs.old i d).worker (calls_left (slice_index_or jobs.old i d).pass) (slice_index_or jobs.new i d).pass }
{
    let crew = jobs.len() as u64;
    thread::for_each_mut(rt, jobs, 8, &|_, job| work(rt, desk, job, crew));
}

/// Joins the passes of all jobs into one, in the order of the jobs.
pub(super) fn gather<O: Annals>(desk: &Desk<O>, pass: &mut Pass<O>, jobs: Vec<Job<O>>)
    requires desk { IsOf desk.now pass.old }
    requires idle { is_out pass.old ≡ false }
    requires jobs { All (λ job. IsSpent desk.now job.pass) jobs.items }
    ensures desk { IsOf desk.now pass.new }
    ensures idle { is_out pass.new ≡ false }
    ensures own { own pass.new ≡ own pass.old ++ flat_map (λ job. own job.pass) jobs.items }
    ensures left { calls_left pass.new ≡ calls_left pass.old }
    ensures start { HasSameStart pass.new pass.old }
{
    for job in jobs {
        pass.join(desk, job.pass);
    }
}
