//! What stands before and behind each node of a workflow.
ghost use Rattle.std.specs.Prelude.{◌≡◌, ◌++◌, map, option_to_list, IfOk, OnOk};
ghost use Rattle.std.specs.Ordering.{nat_cmp};
ghost use Rattle.std.specs.Cmp.Lexicographic.{slice_cmp};
ghost use Rattle.std.specs.FinMap.Entries.{put};
ghost use Rattle.fly_docs.specs.Plans.{node_at};
ghost use Rattle.fly_docs.specs.Closures as closures;
ghost use Rattle.fly_links.specs.Rows.{row_at};
ghost use Rattle.fly_links.specs.Connecting.{lists_with};

use crate::{Layout, Links};
use fly_docs::{Connections, END_NODE, START_NODE};
use fly_types::{List, NoMemory, Text};
use std::alloc::Global;
use std::collections::BTreeMap;

/// The ids before and behind each node of a workflow, by the ids of the nodes. Of two nodes with one id the later counts.
pub fn connections(alloc: Global, layout: &Layout<'_>) -> Result<Connections, NoMemory>
    ensures { IfOk result (λ connections. connections ≡ closures.connections_of layout.now) }
{
    let links = Links::of(alloc, layout)?;
    Ok(Connections {
        upstream: upstream(alloc, layout, &links)?,
        downstream: downstream(alloc, layout, &links)?,
    })
}

fn upstream(
    alloc: Global,
    layout: &Layout<'_>,
    links: &Links<'_>,
) -> Result<List<(Text, List<Text>)>, NoMemory>
    requires { links.now ≡ layout.now }
    ensures { IfOk result (λ lists. lists ≡ closures.by_id (closures.upstream_lists layout.now)) }
{
    let last = links.last_places(alloc)?;
    lists_by_id(
        alloc,
        layout,
        END_NODE,
        last.as_slice(),
        START_NODE,
        links.needed_by(),
    )
}

fn downstream(
    alloc: Global,
    layout: &Layout<'_>,
    links: &Links<'_>,
) -> Result<List<(Text, List<Text>)>, NoMemory>
    requires { links.now ≡ layout.now }
    ensures { IfOk result (λ lists. lists ≡ closures.by_id (closures.downstream_lists layout.now)) }
{
    let first = links.first_places(alloc)?;
    lists_by_id(
        alloc,
        layout,
        START_NODE,
        first.as_slice(),
        END_NODE,
        links.needing(),
    )
}

/// The ids of a row under the id of each node, and those at the ends under `outer`, by the bytes of these ids.
fn lists_by_id(
    alloc: Global,
    layout: &Layout<'_>,
    outer: &str,
    ends: &[usize],
    other: &str,
    rows: &[List<usize>],
) -> Result<List<(Text, List<Text>)>, NoMemory>
    ensures { IfOk result (λ lists. lists ≡ closures.by_id (lists_with layout.now outer.now ends.now other.now rows.now)) }
{
    let nodes = layout.nodes();
    let mut lists = BTreeMap::new(alloc);
    let at_ends = ids_at(alloc, layout, ends)?;
    put_list(Text::from_str(alloc, outer)?, at_ends, &mut lists)?;
    for (place, node) in nodes.iter().enumerate() {
        let ids = ids_beside(alloc, layout, other, rows, place)?;
        put_list(node.id.copy(alloc)?, ids, &mut lists)?;
    }
    in_order(alloc, lists)
}

fn put_list(
    id: Text,
    ids: List<Text>,
    lists: &mut BTreeMap<Text, List<Text>>,
) -> Result<(), NoMemory>
    ensures { OnOk result (lists.new.entries ≡ put (slice_cmp nat_cmp) id ids lists.old.entries) }
{
    lists.insert(id, ids)?;
    Ok(())
}

fn in_order(
    alloc: Global,
    lists: BTreeMap<Text, List<Text>>,
) -> Result<List<(Text, List<Text>)>, NoMemory>
    ensures { IfOk result (λ listed. listed ≡ lists.entries) }
{
    let mut listed = Vec::with_capacity(alloc, lists.len())?;
    for entry in lists {
        listed.push(entry)?;
    }
    Ok(List::from_vec(listed))
}

/// The ids at the places of a row, or the other id where there are none.
fn ids_beside(
    alloc: Global,
    layout: &Layout<'_>,
    other: &str,
    rows: &[List<usize>],
    place: usize,
) -> Result<List<Text>, NoMemory>
    ensures { IfOk result (λ ids. ids ≡ closures.ids_or other.now (closures.ids_at layout.now (row_at rows.now place))) }
{
    let mut ids = Vec::new(alloc);
    if let Some(row) = rows.get(place) {
        push_ids(alloc, layout, row.as_slice(), &mut ids)?;
    }
    if ids.is_empty() {
        ids.push(Text::from_str(alloc, other)?)?;
    }
    Ok(List::from_vec(ids))
}

fn ids_at(alloc: Global, layout: &Layout<'_>, places: &[usize]) -> Result<List<Text>, NoMemory>
    ensures { IfOk result (λ ids. ids ≡ closures.ids_at layout.now places.now) }
{
    let mut ids = Vec::new(alloc);
    push_ids(alloc, layout, places, &mut ids)?;
    Ok(List::from_vec(ids))
}

fn push_ids(
    alloc: Global,
    layout: &Layout<'_>,
    places: &[usize],
    ids: &mut Vec<Text>,
) -> Result<(), NoMemory>
    ensures { OnOk result (ids.new.items ≡ ids.old.items ++ closures.ids_at layout.now places.now) }
{
    for place in places {
        push_id(alloc, layout, *place, ids)?;
    }
    Ok(())
}

fn push_id(
    alloc: Global,
    layout: &Layout<'_>,
    place: usize,
    ids: &mut Vec<Text>,
) -> Result<(), NoMemory>
    ensures { OnOk result (ids.new.items ≡ ids.old.items ++ map (λ n. n.id) (option_to_list (node_at layout.now place))) }
{
    if let Some(node) = layout.node_at(place) {
        ids.push(node.id.copy(alloc)?)?;
    }
    Ok(())
}
