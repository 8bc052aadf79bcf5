//! What moves make of states.
ghost use Rattle.std.specs.Prelude.{◌≡◌, IfOk, is_some, option_map};
ghost use Rattle.fly_state.specs.Laws.{slot_at};
ghost use Rattle.fly_state.specs.Moves as words;
ghost use Rattle.fly_state.specs.OfPlan.{IsViewOfPlan};
ghost use Rattle.fly_world.specs.Effects.{effect_in};

use fly_state::{At, Effect, Entry, ExecState, Move, Plan, View};
use fly_types::{List, NoMemory};
use std::alloc::Global;

/// The effect of a move at a view, with the entries that it cites. None where the move is not legal.
pub(crate) fn effect_of(
    alloc: Global,
    plan: &Plan,
    view: &View,
    step: &Move,
    cited: &List<Entry>,
) -> Result<Option<Effect>, NoMemory>
    requires { IsViewOfPlan plan.now view.now }
    ensures { IfOk result (λ e. option_map effect_in e ≡ words.effect_of plan.now view.now cited.now step.now) }
{
    fly_state::effect_of(alloc, plan, view, step, cited)
}

/// Puts the effect of a move into a state at its slot, which a legal move has.
pub(crate) fn put(
    alloc: Global,
    effect: Effect,
    state: &mut ExecState,
    at: At,
) -> Result<(), NoMemory>
    ensures { IfOk result (λ _. state.new ≡ words.state_with state.old at (effect_in effect)) }
{
    if !has_slot(state, at) {
        return Err(NoMemory);
    }
    effect.put(alloc, state, &at);
    Ok(())
}

/// Whether the state has the slot.
fn has_slot(state: &ExecState, at: At) -> bool
    ensures { result ≡ is_some (slot_at state.now at) }
{
    let Some(number) = at.node else {
        return at.item.is_none();
    };
    let Some(node) = state.nodes.get(number as usize) else {
        return false;
    };
    match at.item {
        Some(item) => node.items.get(item as usize).is_some(),
        None => true,
    }
}
