//! The places on cycles of a graph.
ghost use Rattle.std.specs.Prelude.{◌≡◌, ℕ, ◌<◌, ◌≤◌, ◌^◌, ◌++◌, false, map, length, slice_index_or, All, IfOk, OnOk};
ghost use Rattle.fly_graph.specs.Orders.{EndsBelow};
ghost use Rattle.fly_docs.specs.Reaching.{reaches};
ghost use Rattle.fly_links.specs.Search.{AreBelow, edges_along};

use crate::marks::marks_of;
use fly_graph::{Graph, GraphFault};
use fly_types::{List, NoMemory};
use std::alloc::Global;

/// For each place, whether it reaches itself along the targets. More places than 32 bits can number are wanting memory.
pub fn recursive_marks(alloc: Global, targets: &[List<usize>]) -> Result<Vec<bool>, NoMemory>
    requires { AreBelow (length targets.now) targets.now }
    ensures len { IfOk result (λ marks. length marks.items ≡ length targets.now) }
    ensures each { IfOk result (λ marks. (v : ℕ) → v < length targets.now
        → slice_index_or marks.items v false ≡ reaches (edges_along targets.now) v v) }
{
    let Ok(count) = u32::try_from(targets.len()) else {
        return Err(NoMemory);
    };
    let edges = edges_to(alloc, targets)?;
    cyclic_marks(alloc, count, edges)
}

/// For each place, whether it reaches itself.
fn cyclic_marks(alloc: Global, count: u32, edges: List<(u32, u32)>) -> Result<Vec<bool>, NoMemory>
    requires { EndsBelow count edges }
    ensures len { IfOk result (λ marks. length marks.items ≡ count) }
    ensures each { IfOk result (λ marks. (v : ℕ) → v < count → slice_index_or marks.items v false ≡ reaches edges v v) }
{
    let graph = Graph::of_edges(alloc, count, edges)?;
    match graph.order(alloc) {
        Ok(_order) => Ok(vec![in alloc; false; count as usize]?),
        Err(GraphFault::Cyclic(numbers)) => {
            let places = widened(alloc, numbers.as_slice())?;
            marks_of(alloc, count as usize, &places)
        }
        Err(GraphFault::NoMemory) => Err(NoMemory),
    }
}

fn widened(alloc: Global, numbers: &[u32]) -> Result<Vec<usize>, NoMemory>
    ensures { IfOk result (λ places. places.items ≡ numbers.now) }
{
    let mut places = Vec::with_capacity(alloc, numbers.len())?;
    for number in numbers {
        places.push(*number as usize)?;
    }
    Ok(places)
}

/// The edges to the targets of each place.
fn edges_to(alloc: Global, targets: &[List<usize>]) -> Result<List<(u32, u32)>, NoMemory>
    requires few { length targets.now < 2 ^ 32 }
    requires below { AreBelow (length targets.now) targets.now }
    ensures { IfOk result (λ edges. edges ≡ edges_along targets.now) }
{
    let mut edges = Vec::new(alloc);
    for (place, list) in targets.iter().enumerate() {
        push_edges(place as u32, list.as_slice(), &mut edges)?;
    }
    Ok(List::from_vec(edges))
}

fn push_edges(place: u32, targets: &[usize], edges: &mut Vec<(u32, u32)>) -> Result<(), NoMemory>
    requires { All (λ t. t < 2 ^ 32) targets.now }
    ensures { OnOk result (edges.new.items ≡ edges.old.items ++ map (λ t. (place, t)) targets.now) }
{
    for target in targets {
        edges.push((place, *target as u32))?;
    }
    Ok(())
}
