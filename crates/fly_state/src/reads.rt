//! What stands in the slots of a state.
ghost use Rattle.std.specs.Prelude.{◌≡◌, []};
ghost use Rattle.std.specs.Option.{option_copied};
ghost use Rattle.fly_docs.specs.Bindings.{source_node};
ghost use Rattle.fly_docs.specs.SlotInputs as docs;
ghost use Rattle.fly_state.specs.States as words;

use crate::origins::is_start;
use crate::{ExecState, Phase, Plan, SlotState};
use fly_types::{Literal, LiteralMap, Text};

impl Phase {
    /// Whether it never changes.
    pub fn is_final(self) -> bool
        ensures { result ≡ words.is_final self }
    {
        match self {
            Phase::Succeeded | Phase::Failed | Phase::TimedOut | Phase::Skipped | Phase::Aborted =>
                true,
            _ => false,
        }
    }

    /// Whether it is a failure, by itself or by its time.
    pub(crate) fn is_failure(self) -> bool
        ensures { result ≡ words.is_failure self }
    {
        match self {
            Phase::Failed | Phase::TimedOut => true,
            _ => false,
        }
    }
}

/// The phase of the node of this number.
pub fn phase_at(state: &ExecState, number: u32) -> Phase
    ensures { result ≡ words.phase_of state.now number }
{
    match state.nodes.get(number as usize) {
        Some(node) => node.own.phase,
        None => Phase::NotYetStarted,
    }
}

/// The outputs of the node of this number, where it succeeded.
pub(crate) fn outputs_at(state: &ExecState, number: u32) -> Option<&LiteralMap>
    ensures { option_copied result ≡ words.outputs_in (words.own_state state.now number) }
{
    match state.nodes.get(number as usize) {
        Some(node) => outputs_in(&node.own),
        None => None,
    }
}

fn outputs_in(slot: &SlotState) -> Option<&LiteralMap>
    ensures { option_copied result ≡ words.outputs_in slot.now }
{
    match slot.phase {
        Phase::Succeeded => slot.outputs.as_ref(),
        _ => None,
    }
}

/// What is known of a promise in the primary workflow.
pub(crate) fn known_literal<'s>(
    plan: &Plan,
    state: &'s ExecState,
    node: &Text,
    var: &Text,
) -> Option<&'s Literal>
    ensures { option_copied result ≡ docs.known_literal (words.known_in plan.now state.now []) (source_node node.now, var.now) }
{
    match known_map(plan, state, node) {
        Some(literals) => literal_named(literals, var),
        None => None,
    }
}

/// What is known of the node of a promise.
fn known_map<'s>(plan: &Plan, state: &'s ExecState, node: &Text) -> Option<&'s LiteralMap>
    ensures { option_copied result ≡ words.known_in plan.now state.now [] (source_node node.now) }
{
    if is_start(node) {
        return state.root.inputs.as_ref();
    }
    match plan.source_number(node) {
        Some(number) => outputs_at(state, number),
        None => None,
    }
}

/// The literal of this name.
fn literal_named<'l>(literals: &'l LiteralMap, name: &Text) -> Option<&'l Literal>
    ensures { option_copied result ≡ docs.literal_named name.now literals.now }
{
    let entries = literals.entries.as_slice();
    match entries.iter().find(|entry| entry.0 == *name) {
        Some(entry) => Some(&entry.1),
        None => None,
    }
}
