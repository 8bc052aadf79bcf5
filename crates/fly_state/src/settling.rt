//! What the outcome of an attempt makes of its slot.
ghost use Rattle.std.specs.Prelude.{◌≡◌, ◌<◌, ◌+◌, [], Some, length, IfOk};
ghost use Rattle.std.specs.Option.{option_copied};
ghost use Rattle.fly_docs.specs.Plans.{PlanNode};
ghost use Rattle.fly_policy.specs.Retries.{next_of};
ghost use Rattle.fly_state.specs.declared.moves.Step.TheVariants as step;
ghost use Rattle.fly_state.specs.Moves as words;
ghost use Rattle.fly_state.specs.NodeSlots.{HasEffect, MakesSlot};
ghost use Rattle.fly_state.specs.Plans.{node_numbered};

use crate::cited::is_attempt;
use crate::node_slots::own_slot;
use crate::{Phase, Plan, SlotState, View};
use fly_policy::{Next, Outcome, after_attempt};
use fly_types::{List, LiteralMap, NoMemory, Text};
use std::alloc::Global;

/// What the outcome of its attempt makes of a node's own slot, where it has one.
pub(crate) fn settled_slot(
    alloc: Global,
    p: &Plan,
    v: &View,
    number: u32,
) -> Result<SlotState, NoMemory>
    requires number { number < length p.now.nodes }
    requires legal { HasEffect p.now v.now [] number step.Settle }
    ensures { IfOk result (MakesSlot p.now v.now [] number step.Settle) }
{
    p.primary();
    let slot = own_slot(alloc, &v.state, number)?;
    let Some(outcome) = outcome_in(v, p.path_of(number), None, slot.attempt) else {
        unreachable!();
    };
    let next = next_after(outcome, slot.attempt, retries_of(p, number));
    slot_after(alloc, success_phase(p, number), slot, outcome, next)
}

/// What the attempt came to.
fn outcome_in<'v>(
    v: &'v View,
    own: &List<Text>,
    item: Option<u32>,
    attempt: u32,
) -> Option<&'v Outcome>
    ensures { (p : PlanNode) → p.path ≡ own.now → option_copied result ≡ words.outcome_in v.now p item attempt }
{
    for known in v.launches.as_slice() {
        if is_attempt(v, own, item, attempt, &known.name) {
            return known.outcome.as_ref();
        }
    }
    None
}

/// How many attempts of the node may follow the first.
fn retries_of(p: &Plan, number: u32) -> u32
    requires { number < length p.now.nodes }
    ensures { (n : PlanNode) → node_numbered p.now number ≡ Some n → result + 1 ≡ words.attempt_limit p.now n }
{
    p.primary();
    let own = p.node(number).retries;
    if own != 0 {
        return own;
    }
    match p.task(number) {
        Some(task) => task.retries,
        None => 0,
    }
}

/// What follows an attempt, where so many may follow the first.
fn next_after(outcome: &Outcome, attempt: u32, retries: u32) -> Next
    ensures { result ≡ next_of outcome.now attempt (retries + 1) }
{
    let limit = if attempt < retries { 2 } else { 1 };
    after_attempt(outcome, 0, limit)
}

/// The phase of the node after a success: its outputs are put into the catalog first where they are cached.
fn success_phase(p: &Plan, number: u32) -> Phase
    ensures { (n : PlanNode) → node_numbered p.now number ≡ Some n → result ≡ words.success_phase p.now n }
{
    match p.task(number) {
        Some(task) => {
            if task.cached {
                Phase::Succeeding
            } else {
                Phase::Succeeded
            }
        }
        None => Phase::Succeeded,
    }
}

/// The slot after an attempt with this outcome, where `done` is the phase after a success.
fn slot_after(
    alloc: Global,
    done: Phase,
    slot: SlotState,
    outcome: &Outcome,
    next: Next,
) -> Result<SlotState, NoMemory>
    ensures { IfOk result (λ after. after ≡ words.slot_after done slot outcome.now next) }
{
    let mut slot = slot;
    match next {
        Next::Done => {
            slot.phase = done;
            slot.outputs = outputs_of(alloc, outcome)?;
        }
        Next::Again => slot.phase = Phase::RetryableFailure,
        Next::Failed => {
            slot.phase = Phase::Failed;
            slot.code = code_of(alloc, outcome)?;
        }
        Next::TimedOut => {
            slot.phase = Phase::TimedOut;
            slot.code = Some(Text::from_str(alloc, "Timeout")?);
        }
    }
    Ok(slot)
}

fn outputs_of(alloc: Global, outcome: &Outcome) -> Result<Option<LiteralMap>, NoMemory>
    ensures { IfOk result (λ outputs. outputs ≡ words.outputs_of_outcome outcome.now) }
{
    match outcome {
        Outcome::Succeeded(outputs) => Ok(Some(outputs.copy(alloc)?)),
        _ => Ok(None),
    }
}

/// The code with which an attempt failed.
fn code_of(alloc: Global, outcome: &Outcome) -> Result<Option<Text>, NoMemory>
    ensures { IfOk result (λ code. code ≡ words.code_of_outcome outcome.now) }
{
    match outcome {
        Outcome::Recoverable { code, .. } | Outcome::Fatal { code, .. } => {
            Ok(Some(code.copy(alloc)?))
        }
        _ => Ok(None),
    }
}
