//! Laws of documents: what the writers write of a value is read as that value.
#![tactic(auto)]

mod laws;

pub use laws::{literal_maps_are_read_back, literals_are_read_back};
