//! What legal steps make of the slot of a task node.
ghost use Rattle.std.specs.Prelude.{◌≡◌, ◌<◌, ◌+◌, [], Some, length, IfOk};
ghost use Rattle.fly_state.specs.declared.moves.Step.TheVariants as step;
ghost use Rattle.fly_state.specs.declared.phase.Phase.TheVariants as phase;
ghost use Rattle.fly_state.specs.Moves as words;
ghost use Rattle.fly_state.specs.NodeSlots.{HasEffect, MakesSlot};
ghost use Rattle.fly_state.specs.OfPlan.{IsOfPlan};
ghost use Rattle.fly_state.specs.States.{own_state};

use crate::settling::settled_slot;
use crate::taking::task_inputs;
use crate::values::ValueFault;
use crate::{Entry, ExecState, Phase, Plan, Reply, SlotState, Step, View};
use fly_types::{NoMemory, Text};
use std::alloc::Global;

/// What a step makes of a node's own slot, where it has an effect.
pub(crate) fn node_slot(
    alloc: Global,
    p: &Plan,
    v: &View,
    cited: &[Entry],
    number: u32,
    step: Step,
) -> Result<SlotState, NoMemory>
    requires of_plan { IsOfPlan p.now v.now.state }
    requires number { number < length p.now.nodes }
    requires legal { HasEffect p.now v.now cited.now number step }
    ensures { IfOk result (MakesSlot p.now v.now cited.now number step) }
{
    p.primary();
    match step {
        Step::Queue => queued_slot(alloc, p, v, number),
        Step::InputFail => input_failed_slot(alloc, p, v, number),
        Step::Skip => slot_in_phase(alloc, &v.state, number, Phase::Skipped),
        Step::Run { .. } => run_slot(alloc, &v.state, number),
        Step::Hit(_) => hit_slot(alloc, p, v, cited, number),
        Step::Retry => retried_slot(alloc, &v.state, number),
        Step::Settle => settled_slot(alloc, p, v, number),
        Step::Stored(_) => slot_in_phase(alloc, &v.state, number, Phase::Succeeded),
        Step::Abort => slot_in_phase(alloc, &v.state, number, Phase::Aborted),
        Step::Begin | Step::Choose(_) | Step::NoCase | Step::Close => unreachable!(),
    }
}

/// The node's own slot, with memory of its own.
pub(crate) fn own_slot(alloc: Global, state: &ExecState, number: u32) -> Result<SlotState, NoMemory>
    ensures { IfOk result (λ slot. slot ≡ own_state state.now number) }
{
    match state.nodes.get(number as usize) {
        Some(node) => node.own.copy(alloc),
        None => Ok(SlotState {
            phase: Phase::NotYetStarted,
            attempt: 0,
            choice: None,
            inputs: None,
            outputs: None,
            code: None,
        }),
    }
}

fn slot_in_phase(
    alloc: Global,
    state: &ExecState,
    number: u32,
    phase: Phase,
) -> Result<SlotState, NoMemory>
    ensures { IfOk result (λ slot. slot ≡ record (own_state state.now number) { phase = phase }) }
{
    let mut slot = own_slot(alloc, state, number)?;
    slot.phase = phase;
    Ok(slot)
}

/// The slot failed with this code.
pub(crate) fn failed_slot(alloc: Global, slot: SlotState, code: &str) -> Result<SlotState, NoMemory>
    ensures { IfOk result (λ failed. failed ≡ words.failed_slot slot code.now) }
{
    let mut slot = slot;
    slot.phase = Phase::Failed;
    slot.code = Some(Text::from_str(alloc, code)?);
    Ok(slot)
}

/// The node takes its inputs.
fn queued_slot(alloc: Global, p: &Plan, v: &View, number: u32) -> Result<SlotState, NoMemory>
    requires of_plan { IsOfPlan p.now v.now.state }
    requires number { number < length p.now.nodes }
    requires legal { HasEffect p.now v.now [] number step.Queue }
    ensures { IfOk result (MakesSlot p.now v.now [] number step.Queue) }
{
    p.primary();
    match task_inputs(alloc, p, &v.state, number) {
        Ok(inputs) => {
            let mut slot = own_slot(alloc, &v.state, number)?;
            slot.phase = Phase::Queued;
            slot.inputs = Some(inputs);
            Ok(slot)
        }
        Err(ValueFault::NoMemory) => Err(NoMemory),
        Err(ValueFault::Outside(_)) => unreachable!(),
        Err(ValueFault::Unknown) => unreachable!(),
    }
}

/// The node fails with the code of its inputs' fault.
fn input_failed_slot(alloc: Global, p: &Plan, v: &View, number: u32) -> Result<SlotState, NoMemory>
    requires of_plan { IsOfPlan p.now v.now.state }
    requires number { number < length p.now.nodes }
    requires legal { HasEffect p.now v.now [] number step.InputFail }
    ensures { IfOk result (MakesSlot p.now v.now [] number step.InputFail) }
{
    p.primary();
    match task_inputs(alloc, p, &v.state, number) {
        Err(ValueFault::Outside(_)) => {
            failed_slot(alloc, own_slot(alloc, &v.state, number)?, "EnumOutside")
        }
        Err(ValueFault::NoMemory) => Err(NoMemory),
        Ok(_) => unreachable!(),
        Err(ValueFault::Unknown) => unreachable!(),
    }
}

/// The node runs at its first attempt.
fn run_slot(alloc: Global, state: &ExecState, number: u32) -> Result<SlotState, NoMemory>
    ensures { IfOk result (λ slot. slot ≡ words.run_slot (own_state state.now number)) }
{
    let mut slot = own_slot(alloc, state, number)?;
    slot.phase = Phase::Running;
    slot.attempt = 0;
    Ok(slot)
}

/// The node takes the outputs that the catalog has, as the one entry says.
fn hit_slot(
    alloc: Global,
    p: &Plan,
    v: &View,
    cited: &[Entry],
    number: u32,
) -> Result<SlotState, NoMemory>
    requires legal { HasEffect p.now v.now cited.now number (step.Hit 0) }
    requires number { number < length p.now.nodes }
    ensures { IfOk result (MakesSlot p.now v.now cited.now number (step.Hit 0)) }
{
    p.primary();
    let entry = &cited[0];
    let Reply::Hit(content) = &entry.reply else {
        unreachable!();
    };
    let mut slot = own_slot(alloc, &v.state, number)?;
    slot.phase = Phase::Succeeded;
    slot.outputs = Some(content.copy(alloc)?);
    Ok(slot)
}

/// The node runs at its next attempt.
fn retried_slot(alloc: Global, state: &ExecState, number: u32) -> Result<SlotState, NoMemory>
    ensures { IfOk result (λ slot. slot
        ≡ record (own_state state.now number) { phase = phase.Running; attempt = (own_state state.now number).attempt + 1 }) }
{
    let mut slot = own_slot(alloc, state, number)?;
    let Some(attempt) = slot.attempt.checked_add(1) else {
        return Err(NoMemory);
    };
    slot.phase = Phase::Running;
    slot.attempt = attempt;
    Ok(slot)
}
