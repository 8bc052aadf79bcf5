//! Runs of the generated workflow, in memory, and their summary.
#![tactic(auto)]

mod in_store;
mod making;
mod summary;

pub use making::make_summary;
