//! What `make` prints of a run.
ghost use Rattle.std.specs.Prelude.{◌≡◌, ◌++◌, if◌then◌else◌, length, IfOk, OnOk, string_bytes};
ghost use Rattle.fly_world.specs.ReadOff.{launched_in, launches_by};
ghost use Rattle.fly_make.specs.Making as words;

use fly_report::phase_name;
use fly_state::{Entry, ExecState, Op, Reply, SlotState};
use fly_types::{Literal, NoMemory};
use fly_world::World;
use std::alloc::Global;

/// How many nodes and launches there were, and how each execution ended.
pub(crate) fn summary(alloc: Global, count: u32, world: &World<'_>) -> Result<String, NoMemory>
    ensures { IfOk result (λ text. string_bytes text ≡ words.summary_text count world.now.world) }
{
    let launches = launch_count(world);
    let mut text = format!(in alloc; "nodes {count} launches {launches}")?;
    for number in 0..world.executions() {
        push_end(alloc, &mut text, world.last(number))?;
    }
    text.push_str("\n")?;
    Ok(text)
}

/// How many attempts the journal of a store launches.
fn launch_count(world: &World<'_>) -> u64
    ensures { result ≡ length (launched_in world.now.world.entries) }
{
    let mut count = 0;
    for place in 0..world.len() {
        if is_launch(world.entry(place)) {
            count += 1;
        }
    }
    count
}

/// Whether the entry launches an attempt.
fn is_launch(entry: &Entry) -> bool
    ensures { length (launches_by entry.now.op entry.now.reply) ≡ (if result then 1 else 0) }
{
    match (&entry.op, &entry.reply) {
        (Op::Launch { .. }, Reply::Launched) => true,
        _ => false,
    }
}

/// Adds how an execution ended.
fn push_end(alloc: Global, text: &mut String, state: &ExecState) -> Result<(), NoMemory>
    ensures { OnOk result (string_bytes text.new ≡ string_bytes text.old ++ words.end_text state.now) }
{
    text.push_str(" phase ")?;
    text.push_str(phase_name(state.root.phase))?;
    push_outputs(alloc, text, &state.root)
}

/// Adds the numbers that it put out.
fn push_outputs(alloc: Global, text: &mut String, root: &SlotState) -> Result<(), NoMemory>
    ensures { OnOk result (string_bytes text.new ≡ string_bytes text.old ++ words.output_text root.now) }
{
    let Some(outputs) = &root.outputs else {
        return Ok(());
    };
    for (_, value) in outputs.entries.as_slice() {
        push_number(alloc, text, value)?;
    }
    Ok(())
}

/// Adds a number that was put out.
fn push_number(alloc: Global, text: &mut String, value: &Literal) -> Result<(), NoMemory>
    ensures { OnOk result (string_bytes text.new ≡ string_bytes text.old ++ words.literal_text value.now) }
{
    let Literal::Integer(number) = value else {
        return Ok(());
    };
    let output = format!(in alloc; " output {number}")?;
    text.push_str(output.as_str())?;
    Ok(())
}
