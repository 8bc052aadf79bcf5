//! Directed graphs: the order that takes the least free number each time, or the numbers on cycles.
#![tactic(auto)]

ghost use Rattle.std.specs.Prelude.{◌≡◌, ◌<◌, ◌↔◌, IsTrue, IfOk, IfErr, OnOk};
ghost use Rattle.fly_graph.specs.Walks.{Reaches};
ghost use Rattle.fly_graph.specs.Orders.{graph_of, EndsBelow, HasEachOnce, EdgesGoForward, TakesLeastFree, IsAcyclic};

mod adjacency;
mod components;
mod faults;
mod orders;
mod walks;

use crate::adjacency::Adjacency;
pub use faults::GraphFault;
use fly_types::{List, NoMemory};
pub use orders::{least_order, order_exists};
use std::alloc::Global;
use std::marker::Model;
use std::snapshot::Snapshot;

/// A directed graph, seen as how many numbers it has and the list of its edges.
#[derive(Drop)]
pub struct Graph {
    /// The edges in the order in which they were given, for contracts alone.
    given: Snapshot<List<(u32, u32)>>,
    adjacency: Adjacency,
}

impl Model for Graph {
    ghost use Rattle.std.specs.Prelude.{IsPermutation};
    ghost use Rattle.fly_graph.specs.Orders.{Digraph, graph_of};

    ghost Value = { Digraph };

    ghost view = { λ g. graph_of g.adjacency.count g.given.value };

    ghost invariant = { λ g. IsPermutation g.given.value g.adjacency.edges.items };
}

impl Graph {
    ghost use Rattle.fly_graph.specs.Faults.{HasCause};

    /// The graph of the numbers below `count` with these edges, each from its first number to its second. Edges may be
    /// repeated, and may lead from a number to itself.
    pub fn of_edges(alloc: Global, count: u32, edges: List<(u32, u32)>) -> Result<Graph, NoMemory>
        requires { EndsBelow count edges }
        ensures { IfOk result (λ graph. graph ≡ graph_of count edges) }
    {
        let given = Snapshot::of(&edges);
        let adjacency = Adjacency::build(alloc, count, edges.into_vec())?;
        Ok(Graph { given, adjacency })
    }

    /// Whether a walk of one or more edges leads from `v` back to it.
    pub fn reaches_itself(&self, alloc: Global, v: u32) -> Result<bool, NoMemory>
        requires { v < self.now.count }
        ensures { IfOk result (λ answer. IsTrue answer ↔ Reaches self.now.edges v v) }
    {
        Ok(walks::leads_back(alloc, &self.adjacency, v)?)
    }

    /// The numbers in an order in which each edge goes forward, or those that reach themselves.
    pub fn order(&self, alloc: Global) -> Result<List<u32>, GraphFault>
        ensures once { IfOk result (λ order. HasEachOnce self.now.count order) }
        ensures forward { IfOk result (λ order. EdgesGoForward self.now.edges order) }
        ensures least { IfOk result (λ order. TakesLeastFree self.now order) }
        ensures acyclic { OnOk result (IsAcyclic self.now.edges) }
        ensures cyclic { IfErr result (HasCause self.now.edges) }
    {
        let order = orders::least_free_first(alloc, &self.adjacency)?;
        if order.len() == self.adjacency.count as usize {
            return Ok(List::from_vec(order));
        }
        let cyclic = components::cyclic_numbers(alloc, &self.adjacency)?;
        Err(GraphFault::Cyclic(List::from_vec(cyclic)))
    }
}
