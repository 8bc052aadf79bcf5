//! The nodes of the plan in executions, and what operations name.
ghost use Rattle.std.specs.Prelude.{◌≡◌, ◌||◌, ◌<◌, Some, option_map, option_and_then, unwrap_or, length};
ghost use Rattle.std.specs.List.{list_all};
ghost use Rattle.std.specs.Option.{option_copied};
ghost use Rattle.fly_docs.specs.Plans.{PlanNode};
ghost use Rattle.fly_docs.specs.Templates as templates;
ghost use Rattle.fly_state.specs.Plans.{node_numbered};
ghost use Rattle.fly_state.specs.States as states;
ghost use Rattle.fly_world.specs.World.{is_over};
ghost use Rattle.fly_state.specs.States.{fresh_slot, is_final};
ghost use Rattle.fly_state.specs.Laws as slots;
ghost use Rattle.fly_world.specs.Spots as words;
ghost use Rattle.fly_world.specs.Spots.{Spot as Place};
ghost use Rattle.fly_world.specs.Store.{spot_at};

use crate::store::Store;
use crate::versions::Versions;
use fly_docs::{AttemptName, Node, Target, Task, is_id};
use fly_state::{At, ExecState, Phase, Plan, SlotState, phase_at};
use fly_types::{List, Literal, LiteralMap, Text, Variable, is_member};

/// A node of the plan in an execution, each by its number.
#[derive(Clone, Copy, Debug, PartialEq, Eq)]
pub struct Spot {
    pub execution: usize,
    pub node: u32,
}

/// Whether the text may name an execution or a node.
pub(crate) fn is_id_text(text: &Text) -> bool
    ensures { result ≡ templates.is_id_text text.now }
{
    is_id(text.as_str())
}

/// Whether these may be the name of an execution and a path in an entry.
pub(crate) fn are_ids(exec: &Text, path: &List<Text>) -> bool
    ensures { result ≡ words.are_ids exec.now path.now }
{
    is_id_text(exec) && is_path_of_ids(path)
}

/// Whether the path has ids alone, and at least one.
fn is_path_of_ids(path: &List<Text>) -> bool
    ensures { result ≡ words.is_path_of_ids path.now }
{
    !path.is_empty() && are_all_ids(path.as_slice())
}

fn are_all_ids(ids: &[Text]) -> bool
    ensures { result ≡ list_all templates.is_id_text ids.now }
{
    ids.iter().all(|id| is_id_text(id))
}

/// Whether the map gives each variable at its place, and nothing else.
pub(crate) fn gives_all(variables: &List<Variable>, literals: &LiteralMap) -> bool
    ensures { result ≡ words.gives_all variables.now literals.now }
{
    are_given(variables.as_slice(), literals.entries.as_slice())
}

fn are_given(variables: &[Variable], entries: &[(Text, Literal)]) -> bool
    ensures { result ≡ words.are_given variables.now entries.now }
{
    if variables.len() != entries.len() {
        return false;
    }
    for (place, variable) in variables.iter().enumerate() {
        if !is_given(variable, &entries[place]) {
            return false;
        }
    }
    true
}

fn is_given(variable: &Variable, entry: &(Text, Literal)) -> bool
    ensures { result ≡ words.is_given variable.now entry.now }
{
    entry.0 == variable.name && is_member(&entry.1, &variable.kind)
}

/// The node of the plan that has the path, in the execution of the name.
pub(crate) fn spot_of(store: &Store, exec: &Text, path: &List<Text>) -> Option<Spot>
    ensures { option_map (spot_at store.now.plan store.now.world) result
        ≡ option_map Some (words.spot_of store.now.plan store.now.world exec.now path.now) }
{
    let Some(execution) = store.number_of(exec) else {
        return None;
    };
    match store.plan().node_at(path) {
        Some(node) => Some(Spot { execution, node }),
        None => None,
    }
}

/// The node of an attempt that is of the plan and the submissions.
pub(crate) fn attempt_spot(store: &Store, name: &AttemptName) -> Option<Spot>
    ensures { option_map (spot_at store.now.plan store.now.world) result
        ≡ option_map Some (words.attempt_spot store.now.plan store.now.world name.now) }
{
    let Some(spot) = spot_of(store, &name.exec, &name.path) else {
        return None;
    };
    if spot.node < store.plan().len() && has_attempts(store.plan().node(spot.node), name.item) {
        Some(spot)
    } else {
        None
    }
}

/// Whether the node, or its item of this number, has attempts.
fn has_attempts(node: &Node, item: Option<u32>) -> bool
    ensures { result ≡ words.has_attempts node.now item }
{
    match item {
        None => matches!(node.target, Target::Task(_)),
        Some(_) => matches!(node.target, Target::Array { .. }),
    }
}

/// The slot of a spot in the current version, where the state has it.
pub(crate) fn slot_of<'s>(store: &'s Store, spot: Spot) -> Option<&'s SlotState>
    ensures { (place : Place) → spot_at store.now.plan store.now.world spot ≡ Some place
        → unwrap_or (option_copied result) fresh_slot ≡ words.slot_of place }
{
    let Some(versions) = store.execution(spot.execution) else {
        return None;
    };
    match versions.current().nodes.get(spot.node as usize) {
        Some(node) => Some(&node.own),
        None => None,
    }
}

/// The phase of a spot in the current version.
pub(crate) fn phase_of(store: &Store, spot: Spot) -> Phase
    ensures { (place : Place) → spot_at store.now.plan store.now.world spot ≡ Some place
        → result ≡ words.phase_at place }
{
    match store.execution(spot.execution) {
        Some(versions) => phase_at(versions.current(), spot.node),
        None => Phase::NotYetStarted,
    }
}

/// What of an execution is at the slot of an attempt.
fn attempt_slot<'s>(state: &'s ExecState, number: u32, item: Option<u32>) -> Option<&'s SlotState>
    ensures { option_copied result ≡ slots.slot_at state.now (record { node = Some number; item = item }) }
{
    let Some(node) = state.nodes.get(number as usize) else {
        return None;
    };
    match item {
        None => Some(&node.own),
        Some(item) => node.items.get(item as usize),
    }
}

/// Whether the current version has the slot running at that attempt.
pub(crate) fn runs(store: &Store, spot: Spot, name: &AttemptName) -> bool
    ensures { (place : Place) → spot_at store.now.plan store.now.world spot ≡ Some place
        → result ≡ words.runs place name.now }
{
    let Some(versions) = store.execution(spot.execution) else {
        return false;
    };
    match attempt_slot(versions.current(), spot.node, name.item) {
        Some(slot) => matches!(slot.phase, Phase::Running) && slot.attempt == name.attempt,
        None => false,
    }
}

/// The timeout of the attempts of a node, in milliseconds. 0 is none.
pub(crate) fn timeout_of(plan: &Plan, number: u32) -> u64
    requires { number < length plan.now.nodes }
    ensures { (p : PlanNode) → node_numbered plan.now number ≡ Some p → result ≡ words.timeout_of plan.now p }
{
    // The plan has task nodes alone, each with its task.
    let _task_nodes = plan.primary();
    let own = plan.node(number).timeout_ms;
    if own != 0 {
        return own;
    }
    match plan.task(number) {
        Some(task) => task.timeout_ms,
        None => 0,
    }
}

/// The task of a node whose outputs are cached.
pub(crate) fn cached_task(plan: &Plan, number: u32) -> Option<&Task>
    ensures { option_copied result ≡ option_and_then (words.cached_task plan.now) (node_numbered plan.now number) }
{
    match plan.task(number) {
        Some(task) => { if task.cached { Some(task) } else { None } }
        None => None,
    }
}

/// Whether the node of this number is final in the execution, or the execution is over.
pub(crate) fn has_ended(versions: &Versions, number: u32) -> bool
    ensures { result ≡ (is_over versions.now || is_final (states.phase_of versions.now.state number)) }
{
    versions.is_over() || phase_at(versions.current(), number).is_final()
}
