//! The text of the journal.
#![tactic(auto)]

mod laws;
mod line;
mod moves;
mod object;
mod ops;
mod outcomes;
mod replies;
mod values;

pub use laws::legal_entries_have_lines;
pub use line::write_line;
pub use moves::{slot_text, step_word};
