//! One reconciliation of an execution: from a view of it the questions to the world, and from the answers the moves.
#![tactic(auto)]

mod answers;
mod attempts;
mod finding;
mod moves;
mod progress;
mod questions;
mod round;
mod steps;
mod told;

pub use round::Round;
pub use told::Told;
