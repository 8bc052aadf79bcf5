//! Which versions of an execution agree with plain evaluation.
#![tactic(auto)]

mod laws;

pub use laws::rounds_keep_agreement;
