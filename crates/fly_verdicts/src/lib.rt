//! The report of plain evaluation: what each execution of a store comes to over what the journal records.
#![tactic(auto)]

mod grouped;
mod numbers;
mod report;
mod verdicts;

pub use report::evaluation_report;
pub use verdicts::verdict_name;
