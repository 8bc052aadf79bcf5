//! The values that the messages of documents stand for: total readings of JSON values, which are used up.
#![tactic(auto)]

mod bindings;
mod documents;
mod fields;
mod interfaces;
mod lists;
mod literals;
mod scalars;
mod trees;
mod types;

pub use documents::{bundle_from, error_document_from, submissions_from};
pub use literals::literal_map_from;
