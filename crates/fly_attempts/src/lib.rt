//! The attempts of a run's tasks: what was launched, what of it was handed out, and what each came to.
#![tactic(auto)]

mod attempts;
mod launches;
mod parts;

pub use attempts::Attempts;
pub use parts::{Ending, Handout, Launch};
