use fly_types::{List, NoMemory};
use std::alloc::AllocError;

/// Why a graph has no order.
#[derive(Debug, Drop)]
pub enum GraphFault {
    /// The numbers that reach themselves, rising.
    Cyclic(List<u32>),
    NoMemory,
}

impl From<AllocError> for GraphFault {
    ghost use Rattle.std.specs.Prelude.{◌≡◌};
    ghost use Rattle.fly_graph.specs.declared.faults.GraphFault.TheVariants.{NoMemory as OutOfMemory};

    ghost from_gives = { λ _ fault. fault ≡ OutOfMemory };

    fn from(_: AllocError) -> GraphFault {
        GraphFault::NoMemory
    }
}
