//! Which moves are legal.
ghost use Rattle.std.specs.Prelude.{◌≡◌, ◌<◌, length, is_some, option_and_then, slice_get, Some, None};
ghost use Rattle.std.specs.Option.{option_copied};
ghost use Rattle.fly_docs.specs.Plans.{PlanNode};
ghost use Rattle.fly_rules.specs.Standing.{is_ready_standing, is_skipped_standing};
ghost use Rattle.fly_state.specs.declared.phase.Phase as phases;
ghost use Rattle.fly_state.specs.declared.slots.SlotState as slots;
ghost use Rattle.fly_state.specs.Plans.{node_numbered};
ghost use Rattle.fly_state.specs.OfPlan.{IsViewOfPlan};
ghost use Rattle.fly_state.specs.Checks.{IsTakingOf};
ghost use Rattle.fly_state.specs.Inputs.{inputs_of_node};
ghost use Rattle.fly_state.specs.Moves as words;
ghost use Rattle.fly_state.specs.Standing.{meaning_of, standing_of};
ghost use Rattle.fly_state.specs.States.{node_state, own_state};
ghost use Rattle.fly_state.specs.Values.{HasKnownTypes};

use crate::checks::{Taking, check_variables};
use crate::cited::{has_outcome, is_hit, is_stored, may_run};
use crate::closing::{can_close, may_step};
use crate::reads::phase_at;
use crate::{Entry, ExecState, Move, Phase, Plan, SlotState, Standing, Step, View};
use fly_types::List;

/// Whether a move is legal at a view, with the entries that it cites.
///
/// Takes no memory. A move of a node goes over the phases of all nodes once, and over what the node takes where it is
/// to be queued; one of the root over what all nodes look at.
pub fn legal_move(p: &Plan, v: &View, m: &Move, cited: &List<Entry>) -> bool
    requires { IsViewOfPlan p.now v.now }
    ensures { result ≡ words.is_legal p.now v.now cited.now m.now }
{
    p.primary();
    match m.at.node {
        None => m.at.item.is_none() && is_root_step(p, &v.state, m.step),
        Some(number) => {
            if number >= p.len() {
                return false;
            }
            if !may_step(p, &v.state, m.step) {
                return false;
            }
            match m.at.item {
                None => is_node_step(p, v, cited.as_slice(), number, m.step),
                Some(item) => is_item_step(p, v, number, item, m.step),
            }
        }
    }
}

/// Whether the step is one of the root, which does nothing but close.
fn is_root_step(p: &Plan, state: &ExecState, step: Step) -> bool
    requires { HasKnownTypes p.now state.now }
    ensures { result ≡ is_some (words.root_effect p.now state.now step) }
{
    match step {
        Step::Close => matches!(state.root.phase, Phase::Running) && can_close(p, state),
        _ => false,
    }
}

/// Whether the step is one of an item of the node.
fn is_item_step(p: &Plan, v: &View, number: u32, item: u32, step: Step) -> bool
    requires { number < length p.now.nodes }
    ensures { (n : PlanNode) → node_numbered p.now number ≡ Some n
        → result ≡ is_some (option_and_then (λ slot. words.item_effect p.now v.now n item slot step)
        (slice_get (node_state v.now.state number).items item)) }
{
    let Some(slot) = item_at(&v.state, number, item) else {
        return false;
    };
    match step {
        Step::Retry => may_retry(slot.phase),
        Step::Settle => may_settle(p, v, number, Some(item), slot.phase, slot.attempt),
        Step::Abort => may_abort(slot.phase),
        _ => false,
    }
}

/// Whether the step is one of a task node.
pub(crate) fn is_node_step(p: &Plan, v: &View, cited: &[Entry], number: u32, step: Step) -> bool
    requires known { HasKnownTypes p.now v.now.state }
    requires number { number < length p.now.nodes }
    ensures { (n : PlanNode) → node_numbered p.now number ≡ Some n
        → result ≡ is_some (words.node_effect p.now v.now cited.now number n step) }
{
    p.primary();
    let phase = phase_at(&v.state, number);
    match step {
        Step::Queue => may_queue(p, &v.state, number),
        Step::InputFail => do_inputs_fail(p, &v.state, number),
        Step::Skip => may_skip(p, &v.state, number),
        Step::Run { miss, lease } => may_run_node(p, v, cited, number, miss, lease),
        Step::Hit(_) => may_hit(p, v, cited, number),
        Step::Retry => may_retry(phase),
        Step::Settle => may_settle(p, v, number, None, phase, attempt_at(&v.state, number)),
        Step::Stored(_) => may_store(p, v, cited, number),
        Step::Abort => may_abort(phase),
        Step::Begin | Step::Choose(_) | Step::NoCase | Step::Close => false,
    }
}

/// How a node stands where all others that aren't started count as blocked: it is ready, or to be skipped, just where
/// it is so in the state.
fn assumed(p: &Plan, state: &ExecState, number: u32) -> Standing
    requires { number < length p.now.nodes }
    ensures ready { is_ready_standing (meaning_of result) ≡ is_ready_standing (standing_of p.now state.now number) }
    ensures skipped { is_skipped_standing (meaning_of result)
        ≡ is_skipped_standing (standing_of p.now state.now number) }
{
    p.primary();
    p.order();
    p.standing_by(state, number, &[])
}

/// Whether the node may take its inputs.
fn is_ready(p: &Plan, state: &ExecState, number: u32) -> bool
    requires { number < length p.now.nodes }
    ensures { result ≡ words.is_ready p.now state.now number }
{
    match phase_at(state, number) {
        Phase::NotYetStarted => matches!(assumed(p, state, number), Standing::Ready),
        _ => false,
    }
}

/// Whether the node is to be skipped.
fn may_skip(p: &Plan, state: &ExecState, number: u32) -> bool
    requires { number < length p.now.nodes }
    ensures { result ≡ is_some (words.skipped_slot p.now state.now number) }
{
    match phase_at(state, number) {
        Phase::NotYetStarted => matches!(assumed(p, state, number), Standing::Skipped),
        _ => false,
    }
}

/// What comes of the inputs of a task node.
fn inputs(p: &Plan, state: &ExecState, number: u32) -> Taking
    requires known { HasKnownTypes p.now state.now }
    requires number { number < length p.now.nodes }
    ensures { (n : PlanNode) → node_numbered p.now number ≡ Some n
        → IsTakingOf (inputs_of_node p.now state.now n None) result }
{
    p.primary();
    let Some(task) = p.task(number) else {
        return Taking::Unknown;
    };
    check_variables(
        p,
        state,
        task.interface.inputs.as_slice(),
        &p.node(number).inputs,
        p.bindings(number),
    )
}

/// Whether the node is ready with all its inputs.
fn may_queue(p: &Plan, state: &ExecState, number: u32) -> bool
    requires known { HasKnownTypes p.now state.now }
    requires number { number < length p.now.nodes }
    ensures { (n : PlanNode) → node_numbered p.now number ≡ Some n
        → result ≡ is_some (words.queued_slot p.now state.now number n) }
{
    p.primary();
    is_ready(p, state, number) && matches!(inputs(p, state, number), Taking::There)
}

/// Whether the node is ready, but for a fault of its inputs.
fn do_inputs_fail(p: &Plan, state: &ExecState, number: u32) -> bool
    requires known { HasKnownTypes p.now state.now }
    requires number { number < length p.now.nodes }
    ensures { (n : PlanNode) → node_numbered p.now number ≡ Some n
        → result ≡ is_some (words.input_failed_slot p.now state.now number n) }
{
    p.primary();
    is_ready(p, state, number) && matches!(inputs(p, state, number), Taking::Outside)
}

/// Whether the node's task may run by these entries.
fn may_run_node(
    p: &Plan,
    v: &View,
    cited: &[Entry],
    number: u32,
    miss: Option<u64>,
    lease: Option<u64>,
) -> bool
    requires { number < length p.now.nodes }
    ensures { (n : PlanNode) → node_numbered p.now number ≡ Some n
        → result ≡ is_some (words.run_effect p.now v.now cited.now number n miss lease) }
{
    p.primary();
    match p.task(number) {
        Some(task) => {
            matches!(phase_at(&v.state, number), Phase::Queued)
                && may_run(v, p.path_of(number), task, miss, lease, cited)
        }
        None => false,
    }
}

/// Whether the node's task is cached, and the one entry says that the catalog has its outputs.
fn may_hit(p: &Plan, v: &View, cited: &[Entry], number: u32) -> bool
    requires { number < length p.now.nodes }
    ensures { (n : PlanNode) → node_numbered p.now number ≡ Some n
        → result ≡ is_some (words.hit_slot p.now v.now cited.now number n) }
{
    match cited {
        [entry] => {
            matches!(phase_at(&v.state, number), Phase::Queued)
                && is_cached(p, number)
                && is_hit(v, p.path_of(number), entry)
        }
        _ => false,
    }
}

/// Whether the outputs of the node's task are cached.
fn is_cached(p: &Plan, number: u32) -> bool
    ensures { (n : PlanNode) → node_numbered p.now number ≡ Some n → result ≡ words.is_cached p.now n }
{
    match p.task(number) {
        Some(task) => task.cached,
        None => false,
    }
}

/// Whether the one entry says that the catalog took the node's outputs.
fn may_store(p: &Plan, v: &View, cited: &[Entry], number: u32) -> bool
    requires { number < length p.now.nodes }
    ensures { (n : PlanNode) → node_numbered p.now number ≡ Some n
        → result ≡ is_some (words.stored_slot v.now cited.now number n) }
{
    match cited {
        [entry] => {
            matches!(phase_at(&v.state, number), Phase::Succeeding)
                && is_stored(v, p.path_of(number), entry)
        }
        _ => false,
    }
}

/// Whether a slot in this phase may make another attempt.
fn may_retry(phase: Phase) -> bool
    ensures { (slot : slots.SlotState) → slot.phase ≡ phase → result ≡ is_some (words.retried_slot slot) }
{
    matches!(phase, Phase::RetryableFailure)
}

/// Whether a slot in this phase may be aborted.
fn may_abort(phase: Phase) -> bool
    ensures { (slot : slots.SlotState) → slot.phase ≡ phase → result ≡ is_some (words.aborted_slot slot) }
{
    !phase.is_final()
}

/// Whether a slot of the node, in this phase, may be settled by what this attempt came to.
fn may_settle(
    p: &Plan,
    v: &View,
    number: u32,
    item: Option<u32>,
    phase: Phase,
    attempt: u32,
) -> bool
    requires { number < length p.now.nodes }
    ensures { (n : PlanNode) (slot : slots.SlotState) (done : phases.Phase) → node_numbered p.now number ≡ Some n
        → slot.phase ≡ phase → slot.attempt ≡ attempt
        → result ≡ is_some (words.settled_slot p.now v.now n item done slot) }
{
    matches!(phase, Phase::Running) && has_outcome(v, p.path_of(number), item, attempt)
}

/// The attempt of the node of this number.
fn attempt_at(state: &ExecState, number: u32) -> u32
    ensures { result ≡ (own_state state.now number).attempt }
{
    match state.nodes.get(number as usize) {
        Some(node) => node.own.attempt,
        None => 0,
    }
}

/// The item of the node of this number, where it has it.
fn item_at(state: &ExecState, number: u32, item: u32) -> Option<&SlotState>
    ensures { option_copied result ≡ slice_get (node_state state.now number).items item }
{
    match state.nodes.get(number as usize) {
        Some(node) => node.items.get(item as usize),
        None => None,
    }
}
