//! The places of the nodes that nodes name.
ghost use Rattle.std.specs.Prelude.{◌≡◌, ◌∷◌, [], ◌++◌, map, flat_map, IfOk, OnOk};
ghost use Rattle.fly_docs.specs.Bindings.{source_node, sources_of};
ghost use Rattle.fly_docs.specs.Plans.{nodes_of};
ghost use Rattle.fly_links.specs.Named.{places_named, promised_ids, places_in};

use crate::Layout;
use fly_docs::{Binding, Bound, Node, START_NODE};
use fly_types::{List, NoMemory, Text};
use std::alloc::Global;

/// For each node the places of the nodes that it names, in its inputs and upstream, as often as it names them.
pub fn named_rows(alloc: Global, layout: &Layout<'_>) -> Result<Vec<List<usize>>, NoMemory>
    ensures { IfOk result (λ rows. rows.items ≡ map (places_in layout.now) (nodes_of layout.now)) }
{
    let nodes = layout.nodes();
    let mut rows = Vec::with_capacity(alloc, nodes.len())?;
    for node in nodes {
        rows.push(named_row(alloc, layout, node)?)?;
    }
    Ok(rows)
}

fn named_row(alloc: Global, layout: &Layout<'_>, node: &Node) -> Result<List<usize>, NoMemory>
    ensures { IfOk result (λ row. row ≡ places_in layout.now node.now) }
{
    let mut places = Vec::new(alloc);
    push_inputs(layout, node.inputs.as_slice(), &mut places)?;
    push_ids(layout, node.upstream.as_slice(), &mut places)?;
    Ok(List::from_vec(places))
}

fn push_inputs(
    layout: &Layout<'_>,
    inputs: &[Binding],
    places: &mut Vec<usize>,
) -> Result<(), NoMemory>
    ensures { OnOk result (places.new.items ≡ places.old.items ++ places_named layout.now (sources_of inputs.now)) }
{
    for input in inputs {
        push_bound(layout, &input.bound, places)?;
    }
    Ok(())
}

fn push_ids(layout: &Layout<'_>, ids: &[Text], places: &mut Vec<usize>) -> Result<(), NoMemory>
    ensures { OnOk result (places.new.items ≡ places.old.items ++ places_named layout.now ids.now) }
{
    for id in ids {
        push_id(layout, id, places)?;
    }
    Ok(())
}

/// Appends the places of the nodes from which what is bound promises.
#[cycle(push_bound)]
fn push_bound(layout: &Layout<'_>, x: &Bound, places: &mut Vec<usize>) -> Result<(), NoMemory>
    ensures { OnOk result (places.new.items ≡ places.old.items ++ places_named layout.now (promised_ids x.now)) }
{
    match x {
        Bound::Scalar(_) => Ok(()),
        Bound::Collection(elements) => push_elements(layout, elements.as_slice(), places),
        Bound::Map(entries) => push_entries(layout, entries.as_slice(), places),
        Bound::Promise { node, .. } => push_source(layout, node, places),
    }
}

#[cycle(push_bound)]
fn push_elements(
    layout: &Layout<'_>,
    elements: &[Bound],
    places: &mut Vec<usize>,
) -> Result<(), NoMemory>
    ensures { OnOk result (places.new.items
        ≡ places.old.items ++ flat_map (λ x. places_named layout.now (promised_ids x)) elements.now) }
{
    for element in elements {
        push_bound(layout, element, places)?;
    }
    Ok(())
}

#[cycle(push_bound)]
fn push_entries(
    layout: &Layout<'_>,
    entries: &[(Text, Bound)],
    places: &mut Vec<usize>,
) -> Result<(), NoMemory>
    ensures { OnOk result (places.new.items
        ≡ places.old.items ++ flat_map (λ entry. places_named layout.now (promised_ids entry.1)) entries.now) }
{
    for (_, value) in entries {
        push_bound(layout, value, places)?;
    }
    Ok(())
}

/// Appends the place of the node of a promise: an empty id is the start.
fn push_source(layout: &Layout<'_>, node: &Text, places: &mut Vec<usize>) -> Result<(), NoMemory>
    ensures { OnOk result (places.new.items ≡ places.old.items ++ places_named layout.now (source_node node.now ∷ [])) }
{
    if node.is_empty() {
        return Ok(());
    }
    push_id(layout, node, places)
}

fn push_id(layout: &Layout<'_>, id: &Text, places: &mut Vec<usize>) -> Result<(), NoMemory>
    ensures { OnOk result (places.new.items ≡ places.old.items ++ places_named layout.now (id.now ∷ [])) }
{
    if id.as_str() == START_NODE {
        return Ok(());
    }
    if let Some(place) = layout.place(id) {
        places.push(place)?;
    }
    Ok(())
}
