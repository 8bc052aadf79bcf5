//! Runs of the generated workflow, in memory.
ghost use Rattle.std.specs.Prelude.{◌≡◌, ◌≤◌, ◌<◌, ◌⊎◌, true, IfOk, OnOk, string_bytes};
ghost use Rattle.fly_generator.specs.Generated.{most_nodes};
ghost use Rattle.fly_state.specs.declared.entries.Reply.TheVariants as replies;
ghost use Rattle.fly_world.specs.Kept.{begun};
ghost use Rattle.fly_world.specs.Steps.{are_workflow_inputs};
ghost use Rattle.fly_work.specs.Drives.{IsUncached};
ghost use Rattle.fly_make.specs.Making as words;
ghost use Rattle.fly_make.specs.Making.{IsSummary, IsSummaryOf, IsGeneratedClosure, IsAddingRun, IsOpened};

use crate::in_store::InStore;
use crate::summary::summary;
use fly_compile::{CompileFault, compile, no_faults_exactly_where_typed};
use fly_docs::Closure;
use fly_generator::{Adder, generate, samples_are_typed};
use fly_ports::{Hand, ListClock, OpenGate};
use fly_state::{Op, Plan, Reply};
use fly_types::{List, Literal, LiteralMap, NoMemory, Text};
use fly_work::{DriveFault, Steps, drive_alone};
use fly_world::{Called, World};
use fly_writers::write_closure;
use sha2::{Digest, Sha256};
use std::alloc::Global;
use std::marker::Brand;
use std::sync::ledger::{Blank, Ledger};

/// The summary of a run of the generated workflow of so many nodes.
pub fn make_summary<R>(rt: &R, alloc: Global, count: u32) -> Result<String, NoMemory>
    requires some { 1 ≤ count }
    requires few { count ≤ most_nodes }
    ensures { IfOk result (λ text. IsSummary count (string_bytes text)) }
{
    let closure = generated_closure(alloc, count)?;
    let hash = closure_hash(alloc, &closure)?;
    let plan = Plan::expand(alloc, &closure)?;
    summary_of_run(rt, alloc, count, &plan, hash)
}

/// The summary of the run of a plan whose children add.
fn summary_of_run<R>(
    rt: &R,
    alloc: Global,
    count: u32,
    plan: &Plan,
    hash: [u8; 32],
) -> Result<String, NoMemory>
    requires uncached { IsUncached plan.now }
    requires inputs { are_workflow_inputs plan.now words.made_submission.inputs ≡ true }
    ensures { IfOk result (λ text. IsSummaryOf count plan.now hash (string_bytes text)) }
{
    let world = run_generated(rt, alloc, plan, hash)?;
    summary(alloc, count, &world)
}

/// The closure of the generated bundle.
fn generated_closure(alloc: Global, count: u32) -> Result<Closure, NoMemory>
    requires some { 1 ≤ count }
    requires few { count ≤ most_nodes }
    ensures { IfOk result (IsGeneratedClosure count) }
{
    samples_are_typed();
    no_faults_exactly_where_typed();
    let bundle = generate(alloc, count)?;
    match compile(alloc, &bundle) {
        Ok(closure) => Ok(closure),
        Err(CompileFault::NoMemory) => Err(NoMemory),
        Err(CompileFault::Refused(_)) => unreachable!(),
    }
}

/// The hash by which a journal names its closure: that of the closure's text.
fn closure_hash(alloc: Global, closure: &Closure) -> Result<[u8; 32], NoMemory>
    ensures { IfOk result (λ hash. hash ≡ words.closure_hash closure.now) }
{
    let text = write_closure(alloc, closure)?;
    Ok(Sha256::digest(text.as_slice()))
}

/// The run of a plan whose children add, opened with its submission and driven to its end.
fn run_generated<'p, R>(
    rt: &R,
    alloc: Global,
    plan: &'p Plan,
    hash: [u8; 32],
) -> Result<World<'p>, NoMemory>
    requires uncached { IsUncached plan.now }
    requires inputs { are_workflow_inputs plan.now words.made_submission.inputs ≡ true }
    ensures { IfOk result (λ w. IsAddingRun plan.now hash w.world) }
{
    let mut world = World::begin(alloc, plan, hash)?;
    submit(alloc, &mut world)?;
    drive::<Brand, R>(rt, alloc, Blank::new(1), plan, &mut world)?;
    Ok(world)
}

/// The submission of m, whose input a is 1.
fn submission(alloc: Global) -> Result<Op, NoMemory>
    ensures { IfOk result (λ o. o ≡ words.made_op) }
{
    let mut entries = Vec::new(alloc);
    entries.push((Text::from_str(alloc, "a")?, Literal::Integer(1)))?;
    let entries = List::from_vec(entries);
    Ok(Op::Submit {
        exec: Text::from_str(alloc, "m")?,
        inputs: LiteralMap { entries },
    })
}

/// Whether a submission found its memory, where it is the first one.
fn submitted(called: &Called) -> Result<(), NoMemory>
    requires { (called.now.reply ≡ replies.Submitted) ⊎ (called.now.reply ≡ replies.NoMemory) }
    ensures { OnOk result (called.now.reply ≡ replies.Submitted) }
{
    match called.reply {
        Reply::Submitted => Ok(()),
        Reply::NoMemory => Err(NoMemory),
        _ => unreachable!(),
    }
}

/// Submits the one execution of a run that has begun.
fn submit(alloc: Global, world: &mut World<'_>) -> Result<(), NoMemory>
    requires begins { world.old ≡ begun world.old.plan world.old.closure }
    requires inputs { are_workflow_inputs world.old.plan words.made_submission.inputs ≡ true }
    ensures plan { world.new.plan ≡ world.old.plan }
    ensures closure { world.new.closure ≡ world.old.closure }
    ensures opened { OnOk result (IsOpened world.new) }
{
    world.reserve(1)?;
    let op = submission(alloc)?;
    let called = world.perform(0, op);
    submitted(&called)
}

/// Drives a run that was opened to its end, with children that add.
fn drive<L: Ledger, R>(
    rt: &R,
    alloc: Global,
    blank: Blank,
    plan: &Plan,
    world: &mut World<'_>,
) -> Result<(), NoMemory>
    requires name { blank.name ≡ L.name }
    requires parts { blank.parts ≡ L.parts }
    requires some { 0 < blank.parts }
    requires own { world.old.plan ≡ plan.now }
    requires opened { IsOpened world.old }
    requires uncached { IsUncached plan.now }
    ensures { OnOk result (IsAddingRun plan.now world.old.closure world.new.world) }
{
    let mut hand = Hand {
        spawner: Adder::make(alloc),
        clock: ListClock::make(List::from_vec(Vec::new(alloc))),
        gate: OpenGate,
    };
    let mut keep = InStore;
    let mut steps = Steps::<L>::start(blank);
    match drive_alone(rt, alloc, plan, world, &mut keep, &mut hand, 0, &mut steps) {
        Ok(()) => {
            world.legal_journal();
            let _sums = hand.spawner.runs();
            Ok(())
        }
        Err(DriveFault::NoMemory) => Err(NoMemory),
        Err(DriveFault::Keep) => unreachable!(),
    }
}
