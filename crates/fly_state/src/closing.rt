//! Whether a run has come to its end, and whether it goes on.
ghost use Rattle.std.specs.Prelude.{◌≡◌, ◌<◌, [], ◌∷◌, length, Some, is_some};
ghost use Rattle.std.specs.List.{list_any};
ghost use Rattle.fly_docs.specs.declared.workflow.Workflow as workflow;
ghost use Rattle.fly_docs.specs.Bindings.{sources_of, source_node};
ghost use Rattle.fly_docs.specs.Lookups.{primary_of};
ghost use Rattle.fly_docs.specs.SlotInputs.{workflow_outputs};
ghost use Rattle.fly_state.specs.declared.slots.SlotState as slots;
ghost use Rattle.fly_state.specs.Moves as words;
ghost use Rattle.fly_state.specs.Standing as standings;
ghost use Rattle.fly_state.specs.States as states;
ghost use Rattle.fly_state.specs.Values.{HasKnownTypes};
ghost use Rattle.fly_state.specs.Looks.{promised_ids};
ghost use Rattle.fly_state.specs.Closing.{rests, skips_one};

use crate::checks::{Taking, check_variables};
use crate::reads::phase_at;
use crate::{ExecState, Phase, Plan, Standing, Step};
use fly_docs::{Binding, Bound};
use fly_types::Text;

/// Whether a node of the run's own instance failed. One pass over the nodes.
pub fn has_failure(plan: &Plan, state: &ExecState) -> bool
    ensures { result ≡ words.has_failure plan.now state.now [] }
{
    let _primary = plan.primary();
    for number in 0..plan.len() {
        if phase_at(state, number).is_failure() {
            return true;
        }
    }
    false
}

/// Whether a failure ends the run at once.
pub(crate) fn is_broken(plan: &Plan, state: &ExecState) -> bool
    ensures { result ≡ states.is_broken plan.now state.now [] }
{
    !plan.primary().fail_late && has_failure(plan, state)
}

/// Whether a node may make the step: in a broken run it may be aborted, and elsewhere anything else.
pub(crate) fn may_step(plan: &Plan, state: &ExecState, step: Step) -> bool
    ensures { result ≡ words.may_step plan.now state.now [] step }
{
    let _primary = plan.primary();
    match step {
        Step::Abort => is_broken(plan, state),
        _ => !is_broken(plan, state),
    }
}

/// Whether each node is final or blocked. A node that isn't started is blocked where it would be if all others that
/// aren't started were, since what nodes look at leads back to no node.
pub(crate) fn is_settled(plan: &Plan, state: &ExecState) -> bool
    ensures { result ≡ standings.is_settled plan.now state.now [] }
{
    let _primary = plan.primary();
    let _order = plan.order();
    for number in 0..plan.len() {
        if !is_at_rest(plan, state, number) {
            return false;
        }
    }
    true
}

/// Whether a node is final, or would be blocked if all others that aren't started were.
fn is_at_rest(plan: &Plan, state: &ExecState, number: u32) -> bool
    requires { number < length plan.now.nodes }
    ensures { result ≡ rests plan.now state.now number }
{
    match phase_at(state, number) {
        Phase::NotYetStarted => match plan.standing_by(state, number, &[]) {
            Standing::Blocked => true,
            _ => false,
        },
        phase => phase.is_final(),
    }
}

/// Whether the run can close: it is settled, and what it comes to is known.
pub(crate) fn can_close(plan: &Plan, state: &ExecState) -> bool
    requires { HasKnownTypes plan.now state.now }
    ensures { result ≡ is_some (words.closed_instance_slot plan.now state.now []) }
{
    let primary = plan.primary();
    if !is_settled(plan, state) {
        return false;
    }
    if has_failure(plan, state) {
        return true;
    }
    misses_output(plan, state, primary.outputs.as_slice()) || has_outputs(plan, state)
}

/// Whether what comes of the run's outputs is known.
fn has_outputs(plan: &Plan, state: &ExecState) -> bool
    requires { HasKnownTypes plan.now state.now }
    ensures { (w : workflow.Workflow) (slot : slots.SlotState) → primary_of plan.now.documents ≡ Some w
        → result ≡ is_some (words.slot_with_outputs slot
        (workflow_outputs plan.now.documents w (states.known_in plan.now state.now []))) }
{
    let primary = plan.primary();
    let taking = check_variables(
        plan,
        state,
        primary.interface.outputs.as_slice(),
        &primary.outputs,
        plan.output_bindings(),
    );
    match taking {
        Taking::Unknown => false,
        _ => true,
    }
}

/// Whether one of the bindings promises from a node that was skipped.
pub fn misses_output(plan: &Plan, state: &ExecState, outputs: &[Binding]) -> bool
    ensures { result ≡ skips_one plan.now state.now (sources_of outputs.now) }
{
    for binding in outputs {
        if promises_skipped(plan, state, &binding.bound) {
            return true;
        }
    }
    false
}

/// Whether what is bound promises from a node that was skipped.
#[cycle(skipped)]
fn promises_skipped(plan: &Plan, state: &ExecState, x: &Bound) -> bool
    ensures { result ≡ skips_one plan.now state.now (promised_ids x.now) }
{
    match x {
        Bound::Scalar(_) => false,
        Bound::Collection(elements) => do_elements_skip(plan, state, elements.as_slice()),
        Bound::Map(entries) => do_entries_skip(plan, state, entries.as_slice()),
        Bound::Promise { node, .. } => is_skipped_source(plan, state, node),
    }
}

#[cycle(skipped)]
fn do_elements_skip(plan: &Plan, state: &ExecState, elements: &[Bound]) -> bool
    ensures { result ≡ list_any (λ e. skips_one plan.now state.now (promised_ids e)) elements.now }
{
    for element in elements {
        if promises_skipped(plan, state, element) {
            return true;
        }
    }
    false
}

#[cycle(skipped)]
fn do_entries_skip(plan: &Plan, state: &ExecState, entries: &[(Text, Bound)]) -> bool
    ensures { result ≡ list_any (λ e. skips_one plan.now state.now (promised_ids e.1)) entries.now }
{
    for (_, value) in entries {
        if promises_skipped(plan, state, value) {
            return true;
        }
    }
    false
}

fn is_skipped_source(plan: &Plan, state: &ExecState, node: &Text) -> bool
    ensures { result ≡ skips_one plan.now state.now (source_node node.now ∷ []) }
{
    match plan.source_number(node) {
        Some(number) => match phase_at(state, number) {
            Phase::Skipped => true,
            _ => false,
        },
        None => false,
    }
}
