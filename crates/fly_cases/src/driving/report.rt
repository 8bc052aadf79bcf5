ghost use Rattle.std.specs.Prelude.{◌<◌, length};

use crate::case::wants_memory;
use crate::driving::outside::Outside;
use anyhow::Result;
use fly_ports::Run;
use fly_state::{ExecState, Op, Phase, Plan, Reply, SlotState};
use fly_types::{List, LiteralMap, Text};
use fly_work::DriveFault;
use fly_world::World;
use fly_writers::write_literal;
use serde_json::Value;
use std::alloc::Global;
use std::io::{self, Write};

/// Prints what a drive came to: its end, the runs of children, how many passes were begun, how many entries the store
/// has and how many were kept; and then each execution with its nodes and its outputs.
pub fn print_drive<W: Write>(
    alloc: Global,
    end: Result<(), DriveFault>,
    plan: &Plan,
    world: &World<'_>,
    outside: &Outside,
    writer: &mut W,
) -> Result<()> {
    let end = end_name(end);
    let passes = pass_count(world);
    let entries = world.len();
    let kept = outside.keep.entries().len();
    writeln!(writer, "  end {end}")?;
    print_runs(outside.hand.spawner.runs(), writer)?;
    writeln!(writer, "  passes {passes}")?;
    writeln!(writer, "  entries {entries}")?;
    writeln!(writer, "  kept {kept}")?;
    for number in 0..world.executions() {
        print_execution(alloc, plan, world, number, writer)?;
    }
    Ok(())
}

/// What an end of a drive is called.
fn end_name(end: Result<(), DriveFault>) -> &'static str {
    match end {
        Ok(()) => "ok",
        Err(DriveFault::Keep) => "keep",
        Err(DriveFault::NoMemory) => "no memory",
    }
}

/// Prints the names of the runs, in their order.
fn print_runs<W: Write>(runs: &[Run], writer: &mut W) -> io::Result<()> {
    write!(writer, "  runs")?;
    if runs.is_empty() {
        write!(writer, " -")?;
    }
    for run in runs {
        let name = run.name.as_str();
        write!(writer, " {name}")?;
    }
    writeln!(writer)
}

/// How many passes were begun: the first turn of each reads from the first execution on, and no other does.
fn pass_count(world: &World<'_>) -> u64 {
    let mut count = 0;
    for place in 0..world.len() {
        if matches!(world.entry(place).op, Op::Read { from: 0, .. }) {
            count += 1;
        }
    }
    count
}

/// Prints where an execution and its nodes stand, and the outputs that it has.
fn print_execution<W: Write>(
    alloc: Global,
    plan: &Plan,
    world: &World<'_>,
    number: u32,
    writer: &mut W,
) -> Result<()>
    requires { number < length world.now.world.executions }
{
    let exec = &world.named(number).name;
    let state = world.last(number);
    let name = exec.as_str();
    let phase = phase_name(state.root.phase);
    write!(writer, "  execution {name} {phase}")?;
    print_code(alloc, &state.root, writer)?;
    print_nodes(alloc, plan, world, exec, state, writer)?;
    match &state.root.outputs {
        Some(outputs) => print_outputs(alloc, outputs, writer),
        None => Ok(()),
    }
}

/// Prints where each node of an execution stands, and how many attempts of it were launched.
fn print_nodes<W: Write>(
    alloc: Global,
    plan: &Plan,
    world: &World<'_>,
    exec: &Text,
    state: &ExecState,
    writer: &mut W,
) -> Result<()> {
    for number in 0..plan.len() {
        if let Some(node) = state.nodes.get(number as usize) {
            let id = plan.node(number).id.as_str();
            let phase = phase_name(node.own.phase);
            let attempts = launch_count(world, exec, plan.path_of(number));
            write!(writer, "  {id} {phase} attempts {attempts}")?;
            print_code(alloc, &node.own, writer)?;
        }
    }
    Ok(())
}

/// How many attempts of a node were launched.
fn launch_count(world: &World<'_>, exec: &Text, path: &List<Text>) -> u64 {
    let mut count = 0;
    for place in 0..world.len() {
        let entry = world.entry(place);
        if let (Op::Launch { name, .. }, Reply::Launched) = (&entry.op, &entry.reply)
            && name.exec == *exec
            && name.path == *path
        {
            count += 1;
        }
    }
    count
}

/// Prints the code of a slot that has one, as JSON, and ends the line.
fn print_code<W: Write>(alloc: Global, slot: &SlotState, writer: &mut W) -> Result<()> {
    if let Some(code) = &slot.code {
        let code = Value::String(String::from_str(alloc, code.as_str())?).to_string(alloc)?;
        write!(writer, " {code}")?;
    }
    writeln!(writer)?;
    Ok(())
}

/// Prints outputs, a line each.
fn print_outputs<W: Write>(alloc: Global, outputs: &LiteralMap, writer: &mut W) -> Result<()> {
    for (name, literal) in outputs.entries.as_slice() {
        let name = name.as_str();
        write!(writer, "  output {name} ")?;
        writer.write_all(&write_literal(alloc, literal).map_err(wants_memory)?)?;
        writeln!(writer)?;
    }
    Ok(())
}

/// What a phase is called.
fn phase_name(phase: Phase) -> &'static str {
    match phase {
        Phase::NotYetStarted => "NOT_YET_STARTED",
        Phase::Queued => "QUEUED",
        Phase::Running => "RUNNING",
        Phase::RetryableFailure => "RETRYABLE_FAILURE",
        Phase::Succeeding => "SUCCEEDING",
        Phase::Succeeded => "SUCCEEDED",
        Phase::Failed => "FAILED",
        Phase::TimedOut => "TIMED_OUT",
        Phase::Skipped => "SKIPPED",
        Phase::Aborted => "ABORTED",
    }
}
