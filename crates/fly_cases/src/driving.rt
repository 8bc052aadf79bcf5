//! Runs in memory.
ghost use Rattle.std.specs.Prelude.{◌≡◌, ◌≤◌, ◌<◌, length, None, IfOk, IsTrue};
ghost use Rattle.fly_state.specs.Plans.{plan_for};
ghost use Rattle.fly_work.specs.Drives.{IsUncached};
ghost use Rattle.fly_world.specs.World.{unsettled};

mod outside;
mod report;

use crate::content::Documents;
use anyhow::{Context, Result};
use fly_compile::{CompileFault, compile, no_faults_exactly_where_typed};
use fly_docs::{Closure, Submission};
use fly_idl::{DocFault, DocKind, read_bundle, read_submissions};
use fly_state::{Entry, Op, Plan, Reply};
use fly_types::{List, NoMemory};
use fly_work::{DriveFault, Steps, drive_alone};
use fly_world::{AdmitFault, World};
use outside::Outside;
use report::print_drive;
use serde_json::Value;
use std::alloc::Global;
use std::io::Write;
use std::marker::Brand;
use std::sync::ledger::{Blank, Ledger};

/// The most versions that a worker may look back.
const MAX_LAG: u32 = 16;

/// Why a run can't be driven.
#[derive(Clone, Copy, Debug)]
enum Lack {
    /// The document is no bundle.
    Bundle,
    /// The bundle has faults.
    Closure,
    /// The closure has no plan today.
    Plan,
    /// What is submitted is no step at this place.
    Submission(u64),
    /// Nothing is submitted.
    Execution,
    /// An attempt was claimed and has no outcome.
    Outcome,
    /// A worker would look back too far.
    Lag,
    Memory,
}

impl From<NoMemory> for Lack {
    fn from(_: NoMemory) -> Lack {
        Lack::Memory
    }
}

impl From<DocFault> for Lack {
    fn from(fault: DocFault) -> Lack {
        match fault.kind {
            DocKind::NoMemory => Lack::Memory,
            _ => Lack::Bundle,
        }
    }
}

impl From<CompileFault> for Lack {
    fn from(fault: CompileFault) -> Lack {
        match fault {
            CompileFault::Refused(_) => Lack::Closure,
            CompileFault::NoMemory => Lack::Memory,
        }
    }
}

impl From<AdmitFault> for Lack {
    fn from(fault: AdmitFault) -> Lack {
        match fault {
            AdmitFault::IllegalEntry(place) => Lack::Submission(place),
            AdmitFault::NoMemory => Lack::Memory,
        }
    }
}

/// Drives the run that a line says, in memory and by one worker, and prints the name of the case and what the run came
/// to, or what it lacks: its bundle stands under `drive`, and what is submitted, with inputs of their types, under
/// `submissions`. [`Outside::read`] says what else a line has.
pub fn drive_run<R, W: Write>(
    rt: &R,
    alloc: Global,
    documents: &Documents,
    line: &Value,
    writer: &mut W,
) -> Result<()> {
    let name = line
        .get("case")
        .and_then(Value::as_str)
        .context("a case without a name")?;
    let bundle = documents.content(alloc, line.get("drive").context("a run without a bundle")?)?;
    let submissions = submissions_under(alloc, line.get("submissions"))?;
    let mut outside = Outside::read(alloc, documents, line)?;
    writeln!(writer, "{name}")?;
    match plan_of(alloc, bundle.as_bytes()) {
        Ok(plan) => drive_plan(rt, alloc, &plan, submissions, &mut outside, writer),
        Err(lack) => print_lack(lack, writer),
    }
}

/// The submissions that a line has.
fn submissions_under(alloc: Global, submissions: Option<&Value>) -> Result<List<Submission>> {
    let Some(submissions) = submissions else {
        return Ok(List::from_vec(Vec::new(alloc)));
    };
    let text = submissions.to_string(alloc)?;
    read_submissions(alloc, text.as_bytes())
        .ok()
        .context("submissions that are none")
}

/// The plan of the bundle that the bytes are the document of.
fn plan_of(alloc: Global, bytes: &[u8]) -> Result<Plan, Lack>
    ensures { IfOk result IsUncached }
{
    // What the compiler accepts is typed and acyclic, as a plan needs it.
    no_faults_exactly_where_typed();
    let bundle = read_bundle(alloc, bytes)?;
    let closure = compile(alloc, &bundle)?;
    if !Plan::expands(&closure) || !is_uncached(&closure) {
        return Err(Lack::Plan);
    }
    Ok(Plan::expand(alloc, &closure)?)
}

/// Whether no task's outputs are cached.
fn is_uncached(closure: &Closure) -> bool
    ensures { IsTrue result → IsUncached (plan_for closure.now) }
{
    closure.tasks.as_slice().iter().all(|task| !task.cached)
}

/// Drives the run of a plan, and prints what it came to.
fn drive_plan<R, W: Write>(
    rt: &R,
    alloc: Global,
    plan: &Plan,
    submissions: List<Submission>,
    outside: &mut Outside,
    writer: &mut W,
) -> Result<()>
    requires uncached { IsUncached plan.now }
{
    let mut world = match opened(alloc, plan, submissions) {
        Ok(world) => world,
        Err(lack) => return print_lack(lack, writer),
    };
    if outside.lag > MAX_LAG {
        return print_lack(Lack::Lag, writer);
    }
    let end = drive::<Brand, R>(rt, alloc, Blank::new(1), plan, &mut world, outside);
    print_drive(alloc, end, plan, &world, outside, writer)
}

/// The store of a run that has begun, with its submissions.
fn opened<'p>(
    alloc: Global,
    plan: &'p Plan,
    submissions: List<Submission>,
) -> Result<World<'p>, Lack>
    ensures own { IfOk result (λ w. w.plan ≡ plan.now) }
    ensures some { IfOk result (λ w. 0 < length w.world.executions) }
    ensures settled { IfOk result (λ w. unsettled w.world ≡ None) }
{
    let mut world = World::begin(alloc, plan, [0; 32])?;
    for submission in submissions.into_vec() {
        submit(&mut world, submission)?;
    }
    if world.executions() == 0 {
        return Err(Lack::Execution);
    }
    if world.unsettled().is_some() {
        return Err(Lack::Outcome);
    }
    Ok(world)
}

/// Adds the entry by which a run is submitted.
fn submit(world: &mut World<'_>, submission: Submission) -> Result<(), AdmitFault>
    ensures { world.new.plan ≡ world.old.plan }
{
    let Submission { name, inputs } = submission;
    world.admit(Entry {
        worker: 0,
        op: Op::Submit { exec: name, inputs },
        reply: Reply::Submitted,
    })
}

/// Drives a run that was opened, counting its passes on a ledger.
fn drive<L: Ledger, R>(
    rt: &R,
    alloc: Global,
    blank: Blank,
    plan: &Plan,
    world: &mut World<'_>,
    outside: &mut Outside,
) -> Result<(), DriveFault>
    requires name { blank.name ≡ L.name }
    requires parts { blank.parts ≡ L.parts }
    requires shared { 0 < blank.parts }
    requires own { world.old.plan ≡ plan.now }
    requires some { 0 < length world.old.world.executions }
    requires settled { unsettled world.old.world ≡ None }
    requires uncached { IsUncached plan.now }
    requires lag { outside.old.lag ≤ 16 }
{
    let mut steps = Steps::<L>::start(blank);
    drive_alone(
        rt,
        alloc,
        plan,
        world,
        &mut outside.keep,
        &mut outside.hand,
        outside.lag,
        &mut steps,
    )
}

/// Prints why a run is not driven.
fn print_lack<W: Write>(lack: Lack, writer: &mut W) -> Result<()> {
    match lack {
        Lack::Bundle => writeln!(writer, "  no bundle")?,
        Lack::Closure => writeln!(writer, "  no closure")?,
        Lack::Plan => writeln!(writer, "  no plan")?,
        Lack::Submission(place) => writeln!(writer, "  no step at {place}")?,
        Lack::Execution => writeln!(writer, "  no execution")?,
        Lack::Outcome => writeln!(writer, "  no outcome")?,
        Lack::Lag => writeln!(writer, "  no such lag")?,
        Lack::Memory => writeln!(writer, "  no memory")?,
    }
    Ok(())
}
