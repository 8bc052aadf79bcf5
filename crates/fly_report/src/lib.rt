//! The report of a run: where its executions stand, with their nodes and items, as the lines that are printed.
#![tactic(auto)]

mod launches;
mod lines;
mod phases;
mod reporter;

pub use launches::{LaunchCounts, Slot};
pub use lines::{push_item, push_line, push_outputs, push_path, push_total};
pub use phases::phase_name;
pub use reporter::report;
