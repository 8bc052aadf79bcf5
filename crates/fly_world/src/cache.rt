//! What the catalog has for a node, its reservations, and what a node puts there.
ghost use Rattle.std.specs.Prelude.{◌≡◌, not, ◌||◌, [], Some, IfOk, IsTrue};
ghost use Rattle.fly_state.specs.Moves.{is_succeeding};
ghost use Rattle.fly_state.specs.States.{is_final, is_not_yet_started};
ghost use Rattle.fly_world.specs.Answers.{answer_in, CanMakeAnswer};
ghost use Rattle.fly_world.specs.Cache.{IsCachedNode};
ghost use Rattle.fly_world.specs.Spots as words;
ghost use Rattle.fly_world.specs.Spots.{Spot as Place};
ghost use Rattle.fly_world.specs.Steps as steps;
ghost use Rattle.fly_world.specs.Store.{spot_at};

use crate::answers::{Answer, Change, says};
use crate::spots::{Spot, are_ids, cached_task, gives_all, phase_of, slot_of, spot_of};
use crate::store::{HEARTBEAT, Store};
use fly_catalog::{Grant, Selector, cached_dataset, cached_tag, owner_of};
use fly_docs::Task;
use fly_state::{Phase, Reply};
use fly_types::{List, LiteralMap, NoMemory, Text};
use std::alloc::Global;

/// The spot and the task of a cached node, or the reply where there is none.
pub(crate) enum Cached<'s> {
    /// The entry is illegal.
    Illegal,
    Says(Reply),
    At(Spot, &'s Task),
}

/// The node that an operation on the cache names.
fn cached_node<'s>(store: &'s Store, exec: &Text, path: &List<Text>) -> Cached<'s>
    ensures { IsCachedNode store.now exec.now path.now result }
{
    if !are_ids(exec, path) {
        return Cached::Illegal;
    }
    let Some(spot) = spot_of(store, exec, path) else {
        return Cached::Says(Reply::Unknown);
    };
    match cached_task(store.plan(), spot.node) {
        Some(task) => Cached::At(spot, task),
        None => Cached::Says(Reply::NotReady),
    }
}

/// The outputs that the catalog has for a node's inputs.
pub(crate) fn on_lookup(
    store: &Store,
    exec: &Text,
    path: &List<Text>,
) -> Result<Option<Answer>, NoMemory>
    ensures answer { IfOk result (λ a. answer_in store.now a ≡ steps.on_lookup store.now.plan store.now.world exec.now path.now) }
    ensures change { IfOk result (CanMakeAnswer store.now) }
{
    match cached_node(store, exec, path) {
        Cached::Illegal => Ok(None),
        Cached::Says(reply) => Ok(Some(says(reply))),
        Cached::At(spot, task) => Ok(Some(says(looked_up(store, spot, task)?))),
    }
}

fn looked_up(store: &Store, spot: Spot, task: &Task) -> Result<Reply, NoMemory>
    ensures { (place : Place) → spot_at store.now.plan store.now.world spot ≡ Some place
        → IfOk result (λ r. steps.says r ≡ steps.looked_up store.now.world place task.now) }
{
    if !matches!(phase_of(store, spot), Phase::Queued) {
        return Ok(Reply::NotReady);
    }
    let alloc = store.alloc();
    let dataset = cached_dataset(alloc, task)?;
    let tag = Selector::Tag(tag_at(store, spot)?);
    match store.catalog().get_artifact(&dataset, &tag) {
        Some(content) => {
            if gives_all(&task.interface.outputs, content) {
                Ok(Reply::Hit(content.copy(alloc)?))
            } else {
                Ok(Reply::Miss)
            }
        }
        None => Ok(Reply::Miss),
    }
}

/// A reservation of the node's tag.
pub(crate) fn on_reserve(
    store: &Store,
    exec: &Text,
    path: &List<Text>,
) -> Result<Option<Answer>, NoMemory>
    ensures answer { IfOk result (λ a. answer_in store.now a ≡ steps.on_reserve store.now.plan store.now.world exec.now path.now) }
    ensures change { IfOk result (CanMakeAnswer store.now) }
{
    match cached_node(store, exec, path) {
        Cached::Illegal => Ok(None),
        Cached::Says(reply) => Ok(Some(says(reply))),
        Cached::At(spot, task) => {
            if has_no_turn(phase_of(store, spot), task) {
                return Ok(Some(says(Reply::NotReady)));
            }
            Ok(Some(granted(store, spot, exec, path, task)?))
        }
    }
}

/// Whether a node of the task has no use for a reservation in this phase.
fn has_no_turn(phase: Phase, task: &Task) -> bool
    ensures { result ≡ ((not task.now.serializable || is_not_yet_started phase) || is_final phase) }
{
    !task.serializable || matches!(phase, Phase::NotYetStarted) || phase.is_final()
}

fn granted(
    store: &Store,
    spot: Spot,
    exec: &Text,
    path: &List<Text>,
    task: &Task,
) -> Result<Answer, NoMemory>
    ensures answer { (place : Place) → spot_at store.now.plan store.now.world spot ≡ Some place
        → place.execution.1.name ≡ exec.now → place.node.path ≡ path.now
        → IfOk result (λ a. answer_in store.now (Some a) ≡ Some (steps.granted store.now.world place task.now)) }
    ensures change { (place : Place) → spot_at store.now.plan store.now.world spot ≡ Some place
        → place.execution.1.name ≡ exec.now → place.node.path ≡ path.now
        → IfOk result (λ a. CanMakeAnswer store.now (Some a)) }
{
    let alloc = store.alloc();
    let dataset = cached_dataset(alloc, task)?;
    let tag = tag_at(store, spot)?;
    let owner = owner_of(alloc, exec, path)?;
    let grant = store
        .catalog()
        .grant(alloc, &dataset, &tag, &owner, store.moment(), HEARTBEAT)?;
    Ok(Answer {
        reply: grant_reply(grant),
        change: Change::Reserves {
            spot,
            dataset,
            tag,
            owner,
        },
    })
}

fn grant_reply(grant: Grant) -> Reply
    ensures { result ≡ steps.grant_reply grant }
{
    match grant {
        Grant::Granted { expiry } => Reply::Granted(expiry),
        Grant::HeldBy { owner, expiry } => Reply::HeldBy(owner, expiry),
    }
}

/// The node's outputs go into the catalog.
pub(crate) fn on_put(
    store: &Store,
    exec: &Text,
    path: &List<Text>,
) -> Result<Option<Answer>, NoMemory>
    ensures answer { IfOk result (λ a. answer_in store.now a ≡ steps.on_put store.now.plan store.now.world exec.now path.now) }
    ensures change { IfOk result (CanMakeAnswer store.now) }
{
    match cached_node(store, exec, path) {
        Cached::Illegal => Ok(None),
        Cached::Says(reply) => Ok(Some(says(reply))),
        Cached::At(spot, task) => {
            if !matches!(phase_of(store, spot), Phase::Succeeding) {
                return Ok(Some(says(Reply::NotReady)));
            }
            Ok(Some(put(store, spot, task)?))
        }
    }
}

fn put(store: &Store, spot: Spot, task: &Task) -> Result<Answer, NoMemory>
    ensures answer { (place : Place) → spot_at store.now.plan store.now.world spot ≡ Some place
        → IsTrue (is_succeeding (words.phase_at place))
        → IfOk result (λ a. answer_in store.now (Some a) ≡ Some (steps.put store.now.world place task.now)) }
    ensures change { IfOk result (λ a. CanMakeAnswer store.now (Some a)) }
{
    let alloc = store.alloc();
    let dataset = cached_dataset(alloc, task)?;
    let tag = tag_at(store, spot)?;
    if store.catalog().has_tag(&dataset, &tag) {
        return Ok(says(Reply::Present));
    }
    Ok(Answer {
        reply: Reply::Stored,
        change: Change::Stores {
            dataset,
            tag,
            content: outputs_at(store, spot)?,
        },
    })
}

/// The tag of the outputs of a node, by what it took.
fn tag_at(store: &Store, spot: Spot) -> Result<Text, NoMemory>
    ensures { (place : Place) → spot_at store.now.plan store.now.world spot ≡ Some place
        → IfOk result (λ tag. tag ≡ words.tag_at place) }
{
    let alloc = store.alloc();
    if let Some(slot) = slot_of(store, spot) {
        if let Some(inputs) = &slot.inputs {
            return cached_tag(alloc, inputs);
        }
    }
    cached_tag(alloc, &no_literals(alloc))
}

/// A copy of what a node gave.
fn outputs_at(store: &Store, spot: Spot) -> Result<LiteralMap, NoMemory>
    ensures { (place : Place) → spot_at store.now.plan store.now.world spot ≡ Some place
        → IfOk result (λ outputs. outputs ≡ words.given_in (words.slot_of place)) }
{
    let alloc = store.alloc();
    if let Some(slot) = slot_of(store, spot) {
        if let Some(outputs) = &slot.outputs {
            return outputs.copy(alloc);
        }
    }
    Ok(no_literals(alloc))
}

fn no_literals(alloc: Global) -> LiteralMap
    ensures { result ≡ record { entries = [] } }
{
    LiteralMap {
        entries: List::from_vec(Vec::new(alloc)),
    }
}
