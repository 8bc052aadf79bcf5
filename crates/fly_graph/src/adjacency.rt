ghost use Rattle.std.specs.Prelude.{◌≡◌, ℕ, ◌+◌, ◌<◌, ◌≤◌, ◌==◌, List, length, slice_index, IfOk, IsPermutation};
ghost use Rattle.std.specs.List.Sorted.{IsNonDecreasingBy};
ghost use Rattle.fly_graph.specs.Orders.{EndsBelow};
ghost use Rattle.fly_graph.specs.Adjacency.{edges_leaving, StartsAt, IsIndexed};

use std::alloc::{AllocError, Global};

/// The edges of a graph in the order of their sources, so that those that leave one number stand side by side.
#[derive(Debug, Drop)]
pub struct Adjacency {
    pub count: u32,
    pub edges: Vec<(u32, u32)>,
    /// For each number the place at which the edges that leave it start, and then the end of them all.
    pub starts: Vec<usize>,
    ghost indexed: { IsIndexed count edges.items starts.items },
}

impl Adjacency {
    pub fn build(
        alloc: Global,
        count: u32,
        mut edges: Vec<(u32, u32)>,
    ) -> Result<Adjacency, AllocError>
        requires { EndsBelow count edges.items }
        ensures count { IfOk result (λ adjacency. adjacency.count ≡ count) }
        ensures edges { IfOk result (λ adjacency. IsPermutation edges.items adjacency.edges.items) }
    {
        edges.sort_unstable_by_key(|edge| edge.0);
        let starts = starts_of(alloc, count, edges.as_slice())?;
        Ok(Adjacency {
            count,
            edges,
            starts,
        })
    }

    /// The edges that leave `v`.
    pub fn leaving(&self, v: u32) -> &[(u32, u32)]
        requires { v < self.now.count }
        ensures { result.now ≡ edges_leaving self.now.edges.items v }
    {
        let start = self.starts[v as usize];
        let end = self.starts[v as usize + 1];
        &self.edges[start..end]
    }
}

/// For each number up to `count` the place at which the edges that leave it start.
fn starts_of(alloc: Global, count: u32, edges: &[(u32, u32)]) -> Result<Vec<usize>, AllocError>
    requires { IsNonDecreasingBy (λ edge. edge.0) edges.now }
    ensures len { IfOk result (λ starts. length starts.items ≡ count + 1) }
    ensures each { IfOk result (λ starts. (v : ℕ) → v ≤ count → StartsAt edges.now v (slice_index starts.items v)) }
{
    let mut starts = Vec::new(alloc);
    for v in 0..=count {
        starts.push(start_of(edges, v))?;
    }
    Ok(starts)
}

/// The place at which the edges that leave `v`, or a number above it, start.
fn start_of(edges: &[(u32, u32)], v: u32) -> usize
    requires { IsNonDecreasingBy (λ edge. edge.0) edges.now }
    ensures { StartsAt edges.now v result }
{
    edges.partition_point(|edge| edge.0 < v)
}
