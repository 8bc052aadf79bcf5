//! Which bundles are in form: the test of what every bundle that is read from a document keeps, for bundles that are
//! made in another way.
#![tactic(auto)]

mod bindings;
mod bundle;
mod conditions;
mod nodes;

pub use bundle::is_bundle_in_form;
