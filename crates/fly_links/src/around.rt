//! The branches around the nodes of a workflow, and their cases.
ghost use Rattle.std.specs.Prelude.{◌≡◌, ◌<◌, ◌≤◌, ◌+◌, map, length, IfOk};
ghost use Rattle.std.specs.List.{enumerate_from};
ghost use Rattle.fly_docs.specs.Plans.{nodes_of, inner_nodes, places_of};
ghost use Rattle.fly_links.specs.Rows as as_lists;
ghost use Rattle.fly_links.specs.Around as words;
ghost use Rattle.fly_links.specs.Around.{inner_places, last_alone};

use crate::Layout;
use crate::layout::push_inside;
use crate::rows::transposed;
use fly_docs::Node;
use fly_types::{List, NoMemory};
use std::alloc::Global;

/// For each node the places of the branches around it, the outermost first.
pub fn branches_around(alloc: Global, layout: &Layout<'_>) -> Result<Vec<List<usize>>, NoMemory>
    ensures { IfOk result (λ rows. rows.items ≡ map (words.branches_around layout.now) (places_of layout.now)) }
{
    let inside = inner_rows(alloc, layout.nodes())?;
    transposed(alloc, &inside, layout.nodes().len())
}

/// For each node the places of the nodes inside it.
fn inner_rows(alloc: Global, nodes: &[&Node]) -> Result<Vec<List<usize>>, NoMemory>
    ensures { IfOk result (λ rows. rows.items
        ≡ map (λ at. inner_places (length nodes.now) at.0 at.1) (enumerate_from 0 (map (λ n. n.now) nodes.now))) }
{
    let mut rows = Vec::with_capacity(alloc, nodes.len())?;
    for (place, node) in nodes.iter().enumerate() {
        rows.push(inner_row(alloc, nodes.len(), place, node)?)?;
    }
    Ok(rows)
}

fn inner_row(
    alloc: Global,
    count: usize,
    place: usize,
    node: &Node,
) -> Result<List<usize>, NoMemory>
    requires { place < count }
    ensures { IfOk result (λ row. row ≡ inner_places count place node.now) }
{
    let inside = inner_count(alloc, node)?;
    let behind = count - (place + 1);
    let end = place + 1 + inside.min(behind);
    let mut places = Vec::new(alloc);
    for inner in place + 1..end {
        places.push(inner)?;
    }
    Ok(List::from_vec(places))
}

/// How many nodes are inside a node.
fn inner_count(alloc: Global, node: &Node) -> Result<usize, NoMemory>
    ensures { IfOk result (λ count. count ≡ length (inner_nodes node.now)) }
{
    let mut inside = Vec::new(alloc);
    push_inside(&node.target, &mut inside)?;
    Ok(inside.len())
}

/// For each branch the places of its cases and its else node, by the branches around each node: the innermost of these is
/// the branch whose case it is.
pub fn cases_within(alloc: Global, around: &[List<usize>]) -> Result<Vec<List<usize>>, NoMemory>
    ensures { IfOk result (λ rows. rows.items ≡ as_lists.transposed (length around.now) (map last_alone around.now)) }
{
    let mut innermost = Vec::with_capacity(alloc, around.len())?;
    for row in around {
        innermost.push(last_of(alloc, row.as_slice())?)?;
    }
    transposed(alloc, &innermost, around.len())
}

fn last_of(alloc: Global, row: &[usize]) -> Result<List<usize>, NoMemory>
    ensures { IfOk result (λ last. last ≡ last_alone row.now) }
{
    let mut last = Vec::new(alloc);
    if let Some(place) = row.last() {
        last.push(*place)?;
    }
    Ok(List::from_vec(last))
}
