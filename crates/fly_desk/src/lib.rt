//! A ticket lock over an object with a growing list, whose turns form one history.
#![tactic(auto)]

mod annals;
mod desk;
mod pass;
mod plays;
mod rule;
mod shares;
mod steps;
#[cfg(test)]
mod tests;
mod turn;
mod view;

pub use annals::Annals;
pub use desk::{Desk, StartFault};
pub use pass::Pass;
pub use turn::Turn;
