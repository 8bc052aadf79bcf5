//! The commands of `flyte`, and the top call that runs one.
#![tactic(auto)]

mod accepting;
mod commands;
mod compiling;
mod help;
mod printing;
mod reading;
mod run_line;
mod run_words;
mod running;
mod status;
mod top;
mod words;

pub use commands::plain;
pub use status::Status;
pub use top::flyte;
