//! How a run opens: submissions, checked and fitted to the inputs of the primary workflow, and the store in which a run
//! has opened with them.
#![tactic(auto)]

mod hashes;
mod inputs;
mod lines;
mod opening;
mod submissions;

pub use hashes::closure_hash;
pub use opening::open_run;
pub use submissions::{SubmissionsFault, fit_submissions};
