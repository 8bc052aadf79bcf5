//! Documents read: bytes turned into bundles, submissions, literal maps and what a child said, or the first rule that they break.
#![tactic(auto)]

mod documents;
mod readers;
mod rows;

pub use documents::DOCUMENT_LIMIT;
pub use fly_schema::{DocFault, DocKind};
pub use readers::{read_bundle, read_literal_map, read_said, read_submissions};
