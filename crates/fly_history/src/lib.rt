//! The law that every legal journal agrees with plain evaluation.
#![tactic(auto)]

mod laws;

pub use laws::legal_journals_agree;
