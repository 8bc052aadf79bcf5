//! What moves make of their slots.
ghost use Rattle.std.specs.Prelude.{◌≡◌, ◌<◌, length, slice_set, unwrap_or, IfOk};
ghost use Rattle.fly_state.specs.Effects.{node_in};
ghost use Rattle.fly_state.specs.OfPlan.{IsViewOfPlan};
ghost use Rattle.fly_state.specs.Moves as words;

use crate::legal::legal_move;
use crate::node_slots::node_slot;
use crate::root_slot::closed_root;
use crate::{At, Entry, ExecState, Move, NodeState, Plan, SlotState, View};
use fly_types::{List, NoMemory};
use std::alloc::Global;
use std::mem;

/// What a move makes of its slot, and of the items in it, which it mostly leaves as they are.
#[derive(Debug, Drop)]
pub struct Effect {
    pub slot: SlotState,
    /// None where the items stay as they are.
    pub items: Option<List<SlotState>>,
}

impl Effect {
    ghost use Rattle.std.specs.Prelude.{IsTrue, is_some};
    ghost use Rattle.fly_state.specs.Laws.{slot_at};

    /// The slot of the move becomes what the move makes of it. Takes no memory: the allocator is that of the empty
    /// lists that stand in for a moment.
    pub fn put(self, alloc: Global, state: &mut ExecState, at: &At)
        requires { IsTrue (is_some (slot_at state.old at.now)) }
        ensures { state.new ≡ words.state_with state.old at.now self }
    {
        let Some(number) = at.node else {
            state.root = self.slot;
            return;
        };
        let nodes = mem::replace(&mut state.nodes, List::from_vec(Vec::new(alloc)));
        state.nodes = match at.item {
            None => with_own(nodes, number, self),
            Some(item) => with_item(alloc, nodes, number, item, self),
        };
    }
}

/// The nodes, in which one is as a move of it makes it.
fn with_own(nodes: List<NodeState>, number: u32, effect: Effect) -> List<NodeState>
    requires { number < length nodes }
    ensures { result ≡ slice_set nodes number (record { own = effect.slot; items = unwrap_or effect.items (node_in nodes number).items }) }
{
    let mut nodes = nodes.into_vec();
    let node = &mut nodes[number as usize];
    node.own = effect.slot;
    if let Some(items) = effect.items {
        node.items = items;
    }
    List::from_vec(nodes)
}

/// The nodes, in which an item of one is as a move of it makes it.
fn with_item(
    alloc: Global,
    nodes: List<NodeState>,
    number: u32,
    item: u32,
    effect: Effect,
) -> List<NodeState>
    requires node { number < length nodes }
    requires item { item < length (node_in nodes number).items }
    ensures { result ≡ slice_set nodes number (record (node_in nodes number) { items = slice_set (node_in nodes number).items item effect.slot }) }
{
    let mut nodes = nodes.into_vec();
    let node = &mut nodes[number as usize];
    let mut items = mem::replace(&mut node.items, List::from_vec(Vec::new(alloc))).into_vec();
    items[item as usize] = effect.slot;
    node.items = List::from_vec(items);
    List::from_vec(nodes)
}

/// What a move makes of its slot at a view, with the entries that it cites. None where the move is not legal.
///
/// Costs what `legal_move` costs, and a copy of the slot with what it takes. Answers `NoMemory` too where the number of
/// the next attempt is past what a slot can hold.
pub fn effect_of(
    alloc: Global,
    p: &Plan,
    v: &View,
    m: &Move,
    cited: &List<Entry>,
) -> Result<Option<Effect>, NoMemory>
    requires { IsViewOfPlan p.now v.now }
    ensures { IfOk result (λ e. e ≡ words.effect_of p.now v.now cited.now m.now) }
{
    p.primary();
    if !legal_move(p, v, m, cited) {
        return Ok(None);
    }
    let slot = match m.at.node {
        None => closed_root(alloc, p, &v.state)?,
        Some(number) => match m.at.item {
            None => node_slot(alloc, p, v, cited.as_slice(), number, m.step)?,
            Some(_) => unreachable!(),
        },
    };
    Ok(Some(Effect { slot, items: None }))
}
