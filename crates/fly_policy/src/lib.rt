//! What a child's end means for its attempt, whether another attempt is made, and when an array is done.
#![tactic(auto)]

mod heard;
mod items;
mod outcome;
mod retries;
mod timeouts;

pub use heard::Heard;
pub use items::Items;
pub use outcome::{Outcome, outcome_of};
pub use retries::{Next, after_attempt};
pub use timeouts::expired;
