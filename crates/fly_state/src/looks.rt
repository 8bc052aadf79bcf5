//! What the nodes of a plan look at, and an order in which each comes after that.
ghost use Rattle.std.specs.Prelude.{◌≡◌, ◌<◌, ◌^◌, ◌++◌, [], ◌∷◌, map, flat_map, filter_map, length, IfOk, OnOk};
ghost use Rattle.std.specs.BTreeMap.{get};
ghost use Rattle.std.specs.Ordering.{nat_cmp};
ghost use Rattle.std.specs.Cmp.Lexicographic.{slice_cmp};
ghost use Rattle.fly_docs.specs.Bindings.{source_node};
ghost use Rattle.fly_docs.specs.Edges.{named_ids};
ghost use Rattle.fly_rules.specs.Rules.{IsGrounded};
ghost use Rattle.fly_state.specs.Looks.{IsLookOrder, promised_ids, places_among};
ghost use Rattle.fly_state.specs.Sites.{looks_at};

use crate::sites::Site;
use fly_docs::{Bound, Node, START_NODE};
use fly_graph::{Graph, GraphFault};
use fly_types::{List, NoMemory, Text};
use std::alloc::Global;
use std::collections::BTreeMap;

/// The numbers of the nodes that a node promises from or names, by the number of each id.
pub(crate) fn looks_of(
    alloc: Global,
    numbers: &BTreeMap<Text, u32>,
    node: &Node,
) -> Result<Vec<u32>, NoMemory>
    ensures { IfOk result (λ looks. looks.items ≡ filter_map (get (slice_cmp nat_cmp) numbers.now) (named_ids node.now)) }
{
    let mut looks = Vec::new(alloc);
    for binding in node.inputs.as_slice() {
        push_promised(&mut looks, numbers, &binding.bound)?;
    }
    for id in node.upstream.as_slice() {
        push_named(&mut looks, numbers, id)?;
    }
    Ok(looks)
}

/// Appends the numbers of the nodes that are promised from.
#[cycle(push_promised)]
fn push_promised(
    looks: &mut Vec<u32>,
    numbers: &BTreeMap<Text, u32>,
    x: &Bound,
) -> Result<(), NoMemory>
    ensures { OnOk result (looks.new.items ≡ looks.old.items ++ places_among (get (slice_cmp nat_cmp) numbers.now) (promised_ids x.now)) }
{
    match x {
        Bound::Scalar(_) => Ok(()),
        Bound::Collection(elements) => push_elements(looks, numbers, elements.as_slice()),
        Bound::Map(entries) => push_entries(looks, numbers, entries.as_slice()),
        Bound::Promise { node, .. } => push_promise(looks, numbers, node),
    }
}

#[cycle(push_promised)]
fn push_elements(
    looks: &mut Vec<u32>,
    numbers: &BTreeMap<Text, u32>,
    elements: &[Bound],
) -> Result<(), NoMemory>
    ensures { OnOk result (looks.new.items
        ≡ looks.old.items ++ flat_map (λ e. places_among (get (slice_cmp nat_cmp) numbers.now) (promised_ids e)) elements.now) }
{
    for element in elements {
        push_promised(looks, numbers, element)?;
    }
    Ok(())
}

#[cycle(push_promised)]
fn push_entries(
    looks: &mut Vec<u32>,
    numbers: &BTreeMap<Text, u32>,
    entries: &[(Text, Bound)],
) -> Result<(), NoMemory>
    ensures { OnOk result (looks.new.items
        ≡ looks.old.items ++ flat_map (λ e. places_among (get (slice_cmp nat_cmp) numbers.now) (promised_ids e.1)) entries.now) }
{
    for (_, value) in entries {
        push_promised(looks, numbers, value)?;
    }
    Ok(())
}

/// Appends the number of the node that an id of a promise names. An empty one is the start.
fn push_promise(
    looks: &mut Vec<u32>,
    numbers: &BTreeMap<Text, u32>,
    node: &Text,
) -> Result<(), NoMemory>
    ensures { OnOk result (looks.new.items
        ≡ looks.old.items ++ places_among (get (slice_cmp nat_cmp) numbers.now) (source_node node.now ∷ [])) }
{
    if node.is_empty() {
        return Ok(());
    }
    push_named(looks, numbers, node)
}

/// Appends the number of the node of an id. The start is no node.
fn push_named(
    looks: &mut Vec<u32>,
    numbers: &BTreeMap<Text, u32>,
    id: &Text,
) -> Result<(), NoMemory>
    ensures { OnOk result (looks.new.items ≡ looks.old.items ++ places_among (get (slice_cmp nat_cmp) numbers.now) (id.now ∷ [])) }
{
    if id.as_str() == START_NODE {
        return Ok(());
    }
    if let Some(number) = numbers.get(id) {
        looks.push(*number)?;
    }
    Ok(())
}

/// The numbers in an order in which each comes after those that it looks at.
pub(crate) fn order_of(alloc: Global, sites: &[Site]) -> Result<List<u32>, NoMemory>
    requires few { length sites.now < 2 ^ 32 }
    requires grounded { IsGrounded (looks_at sites.now) (length sites.now) }
    ensures { IfOk result (IsLookOrder (looks_at sites.now) (length sites.now)) }
{
    let mut edges = Vec::new(alloc);
    for number in 0..sites.len() {
        push_edges(&mut edges, number as u32, sites[number].looks.as_slice())?;
    }
    let graph = Graph::of_edges(alloc, sites.len() as u32, List::from_vec(edges))?;
    match graph.order(alloc) {
        Ok(order) => Ok(order),
        Err(GraphFault::Cyclic(_)) => unreachable!(),
        Err(GraphFault::NoMemory) => Err(NoMemory),
    }
}

fn push_edges(edges: &mut Vec<(u32, u32)>, number: u32, looks: &[u32]) -> Result<(), NoMemory>
    ensures { OnOk result (edges.new.items ≡ edges.old.items ++ map (λ u. (u, number)) looks.now) }
{
    for look in looks {
        edges.push((*look, number))?;
    }
    Ok(())
}
