ghost use Rattle.std.specs.Prelude.{◌≡◌, ℕ, ◌+◌, ◌<◌, ◌≤◌, ◌==◌, ◌&&◌, ◌||◌, ◌↔◌, nat_lt, List as Listed, length, slice_index, count_by, All, IfOk, OnOk};
ghost use Rattle.std.specs.Ordering.{nat_cmp};
ghost use Rattle.std.specs.BTreeSet.{contains};
ghost use Rattle.fly_graph.specs.Orders.{Digraph, graph_of, EndsBelow, IsFree, TakesLeastFree, IsAcyclic, IsOrder, IsLeastOrder};

use crate::adjacency::Adjacency;
use std::alloc::{AllocError, Global};
use std::collections::BTreeSet;

/// A graph has an order just where no number reaches itself.
pub fn order_exists()
    ensures { (graph : Digraph) → EndsBelow graph.count graph.edges
        → ((order : Listed ℕ) × IsOrder graph order) ↔ IsAcyclic graph.edges }
{}

/// One order takes the least free number each time, and no other does.
pub fn least_order()
    ensures exists { (graph : Digraph) → EndsBelow graph.count graph.edges → IsAcyclic graph.edges
        → (order : Listed ℕ) × IsLeastOrder graph order }
    ensures only { (graph : Digraph) (order other : Listed ℕ)
        → IsLeastOrder graph order → IsLeastOrder graph other → order ≡ other }
{}

/// Takes the least free number again and again, until none is free.
pub fn least_free_first(alloc: Global, adjacency: &Adjacency) -> Result<Vec<u32>, AllocError>
    ensures least { IfOk result
        (λ order. TakesLeastFree (graph_of adjacency.now.count adjacency.now.edges.items) order.items) }
    ensures none_left { IfOk result
        (λ order. (v : ℕ) → ¬ IsFree (graph_of adjacency.now.count adjacency.now.edges.items) order.items v) }
{
    let mut missing = incoming(alloc, adjacency)?;
    let mut free = sources(alloc, adjacency.count, missing.as_slice())?;
    let mut order = Vec::new(alloc);
    while let Some(v) = free.pop_first() {
        order.push(v)?;
        release(adjacency.leaving(v), missing.as_mut_slice(), &mut free)?;
    }
    Ok(order)
}

/// For each number, how many edges lead to it.
fn incoming(alloc: Global, adjacency: &Adjacency) -> Result<Vec<usize>, AllocError>
    ensures len { IfOk result (λ missing. length missing.items ≡ adjacency.now.count) }
    ensures counted { IfOk result (λ missing. (v : ℕ) → v < adjacency.now.count
        → slice_index missing.items v ≡ count_by (λ edge. edge.1 == v) adjacency.now.edges.items) }
{
    let mut missing = vec![in alloc; 0; adjacency.count as usize]?;
    for edge in &adjacency.edges {
        missing[edge.1 as usize] += 1;
    }
    Ok(missing)
}

/// The numbers for which no edge is missing.
fn sources(alloc: Global, count: u32, missing: &[usize]) -> Result<BTreeSet<u32>, AllocError>
    requires { length missing.now ≡ count }
    ensures { IfOk result
        (λ free. (v : ℕ) → contains nat_cmp free v ≡ (nat_lt v count && (slice_index missing.now v == 0))) }
{
    let mut free = BTreeSet::new(alloc);
    for v in 0..count {
        if missing[v as usize] == 0 {
            free.insert(v)?;
        }
    }
    Ok(free)
}

/// Takes the edges that leave a number from those that are missing, and adds the numbers for which none is left.
fn release(
    leaving: &[(u32, u32)],
    missing: &mut [usize],
    free: &mut BTreeSet<u32>,
) -> Result<(), AllocError>
    requires targets { All (λ edge. edge.1 < length missing.old) leaving.now }
    requires counted { (v : ℕ) → v < length missing.old
        → count_by (λ edge. edge.1 == v) leaving.now ≤ slice_index missing.old v }
    ensures taken { OnOk result ((v : ℕ) → v < length missing.old
        → slice_index missing.new v + count_by (λ edge. edge.1 == v) leaving.now ≡ slice_index missing.old v) }
    ensures freed { OnOk result ((v : ℕ) → contains nat_cmp free.new v
        ≡ (contains nat_cmp free.old v || (nat_lt 0 (count_by (λ edge. edge.1 == v) leaving.now) && (slice_index missing.new v == 0)))) }
{
    for edge in leaving {
        let target = edge.1;
        missing[target as usize] -= 1;
        if missing[target as usize] == 0 {
            free.insert(target)?;
        }
    }
    Ok(())
}
