//! The words of a task's command with its inputs put in for their templates.
#![tactic(auto)]

mod inputs;
mod plain;
mod templates;
mod words;

pub use words::child_words;
