//! What closures promise: the law that the templates in the closure of a typed and acyclic bundle are typed and
//! acyclic.
#![tactic(auto)]

mod laws;

pub use laws::closures_are_typed;
