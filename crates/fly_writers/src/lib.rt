//! The JSON text of types, literals, workflows and closures, as the proto3 mapping writes flyteidl's messages.
#![tactic(auto)]

mod bindings;
mod closures;
mod conditions;
mod documents;
mod json;
mod literals;
mod message;
mod nodes;
mod types;

pub use closures::write_closure;
pub use literals::{write_literal, write_literal_map};
