//! A generated workflow of any size, and a spawner in memory that answers for its tasks.
#![tactic(auto)]

mod adder;
mod generated;
mod laws;

pub use adder::Adder;
pub use generated::{MAX_NODES, generate};
pub use laws::samples_are_typed;
