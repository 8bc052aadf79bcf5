//! Writes: rounds of moves on the current version of an execution.
ghost use Rattle.std.specs.Prelude.{◌≡◌, ◌++◌, IfOk, option_map, option_to_list};
ghost use Rattle.fly_state.specs.OfPlan.{IsViewOfPlan};
ghost use Rattle.fly_state.specs.Rounds as rounds;
ghost use Rattle.std.specs.List.{list_all};
ghost use Rattle.fly_world.specs.Answers.{answer_in, CanMakeAnswer};
ghost use Rattle.fly_world.specs.Effects.{effect_in};
ghost use Rattle.fly_world.specs.Steps as steps;
ghost use Rattle.fly_world.specs.Store.{IsSound};
ghost use Rattle.fly_world.specs.Writes as words;
ghost use Rattle.fly_world.specs.Writes.{IsMoved, IsCited, PushesCited};

use crate::answers::{Answer, Change, says};
use crate::effects::{effect_of, put};
use crate::spots::is_id_text;
use crate::store::Store;
use crate::views::view_at;
use fly_state::{At, Effect, Entry, ExecState, Move, Plan, Reply, Step, View};
use fly_types::{List, NoMemory, Text};
use std::collections::BTreeSet;

/// The moves make the version after the base, where they are a round at it.
pub(crate) fn on_write(
    store: &Store,
    exec: &Text,
    base: u64,
    moves: &List<Move>,
) -> Result<Option<Answer>, NoMemory>
    requires { IsSound store.now }
    ensures answer { IfOk result (λ a. answer_in store.now a ≡ steps.on_write store.now.plan store.now.world exec.now base moves.now) }
    ensures change { IfOk result (CanMakeAnswer store.now) }
{
    if !is_id_text(exec) || !are_in_plan(store.plan(), moves.as_slice()) {
        return Ok(None);
    }
    let Some(number) = store.number_of(exec) else {
        return Ok(Some(says(Reply::Unknown)));
    };
    let Some(versions) = store.execution(number) else {
        return Ok(Some(says(Reply::Unknown)));
    };
    let current = versions.number();
    if base != current {
        return Ok(Some(says(Reply::Stale(current))));
    }
    let Some(view) = view_at(store, number, current)? else {
        return Ok(Some(says(Reply::Unknown)));
    };
    Ok(Some(match move_all(store, &view, moves.as_slice())? {
        Moved::Bad(index) => says(Reply::IllegalMove(index)),
        Moved::To(state) => Answer {
            reply: Reply::Written(current + 1),
            change: Change::Version { number, state },
        },
    }))
}

/// Whether each slot is the root, or at a node that the plan has.
fn are_in_plan(plan: &Plan, moves: &[Move]) -> bool
    ensures { result ≡ list_all (λ m. steps.is_in_plan plan.now m.at) moves.now }
{
    moves.iter().all(|step| is_in_plan(plan, &step.at))
}

/// Whether the slot is the root, or at a node that the plan has.
fn is_in_plan(plan: &Plan, at: &At) -> bool
    ensures { result ≡ steps.is_in_plan plan.now at.now }
{
    match at.node {
        Some(number) => number < plan.len(),
        None => at.item.is_none(),
    }
}

/// What comes of the moves of a Write.
pub(crate) enum Moved {
    /// The number of the first move that is not legal, or that repeats a slot.
    Bad(u64),
    /// The state after all of them.
    To(ExecState),
}

/// What comes of moves that are all made at one view.
fn move_all(store: &Store, view: &View, moves: &[Move]) -> Result<Moved, NoMemory>
    requires { IsViewOfPlan store.now.plan view.now }
    ensures { IfOk result (IsMoved store.now view.now moves.now) }
{
    let alloc = store.alloc();
    if moves.is_empty() {
        return Ok(Moved::Bad(0));
    }
    let mut state = view.state.copy(alloc)?;
    let mut slots = BTreeSet::new(alloc);
    for (index, step) in moves.iter().enumerate() {
        if !slots.insert((step.at.node, step.at.item))? {
            return Ok(Moved::Bad(index as u64));
        }
        let Some(effect) = cited_effect(store, view, step)? else {
            return Ok(Moved::Bad(index as u64));
        };
        put(alloc, effect, &mut state, step.at)?;
    }
    Ok(Moved::To(state))
}

/// The effect of a move with the entries that it cites. None where it is not legal.
fn cited_effect(store: &Store, view: &View, step: &Move) -> Result<Option<Effect>, NoMemory>
    requires { IsViewOfPlan store.now.plan view.now }
    ensures { IfOk result (λ e. option_map effect_in e ≡ words.cited_effect store.now.plan store.now.world view.now step.now) }
{
    let Some(cited) = cited_entries(store, step.step)? else {
        return Ok(None);
    };
    effect_of(store.alloc(), store.plan(), view, step, &cited)
}

/// Copies of the entries that a step cites. None where one is not there.
fn cited_entries(store: &Store, step: Step) -> Result<Option<List<Entry>>, NoMemory>
    ensures { IfOk result (IsCited store.now step) }
{
    let mut entries = Vec::with_capacity(store.alloc(), 2)?;
    let (first, second) = cited_places(step);
    if !push_entry(store, first, &mut entries)? {
        return Ok(None);
    }
    if !push_entry(store, second, &mut entries)? {
        return Ok(None);
    }
    Ok(Some(List::from_vec(entries)))
}

/// The places of the entries that a step cites, at most two.
fn cited_places(step: Step) -> (Option<u64>, Option<u64>)
    ensures { rounds.cited_places step ≡ option_to_list result.0 ++ option_to_list result.1 }
{
    match step {
        Step::Run { miss, lease } => (miss, lease),
        Step::Hit(place) | Step::Stored(place) => (Some(place), None),
        _ => (None, None),
    }
}

/// Adds a copy of the entry of a place, where one is cited, and answers whether it is there.
fn push_entry(store: &Store, place: Option<u64>, entries: &mut Vec<Entry>) -> Result<bool, NoMemory>
    ensures { IfOk result (PushesCited store.now.world.entries place entries.old.items entries.new.items) }
{
    let Some(place) = place else {
        return Ok(true);
    };
    match store.entry(place) {
        Some(entry) => {
            entries.push(entry.copy(store.alloc())?)?;
            Ok(true)
        }
        None => Ok(false),
    }
}
