ghost use Rattle.std.specs.Prelude.{◌<◌, ◌↔◌, IsTrue, IfOk};
ghost use Rattle.fly_graph.specs.Walks.{Reaches};

use crate::adjacency::Adjacency;
use crate::components::Search;
use std::alloc::{AllocError, Global};

/// Whether a walk leads from `v` back to it. Follows the edges that `v` reaches and no others, each once.
pub fn leads_back(alloc: Global, adjacency: &Adjacency, v: u32) -> Result<bool, AllocError>
    requires { v < adjacency.now.count }
    ensures { IfOk result (λ answer. IsTrue answer ↔ Reaches adjacency.now.edges.items v v) }
{
    let mut search = Search::new(alloc, adjacency.count)?;
    search.visit(adjacency, v)?;
    Ok(search.cyclic[v as usize])
}
