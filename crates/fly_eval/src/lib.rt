//! Plain evaluation: what a run means, without versions, rounds and workers.
#![tactic(auto)]

mod attempts;
mod evaluation;
mod judging;
mod laws;
mod passes;
mod results;
mod seen;
mod tables;
mod verdict;

pub use evaluation::{evaluate, evaluate_by_plan};
pub use laws::later_records_keep_verdicts;
pub use results::{Hits, Results};
pub use seen::{Evaluated, Seen};
pub use verdict::Verdict;
