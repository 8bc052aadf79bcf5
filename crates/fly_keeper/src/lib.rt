//! Keeps the journal of a run as lines at the end of a file.
#![tactic(auto)]

mod file_keep;

pub use file_keep::{FileKeep, keep_journal};
