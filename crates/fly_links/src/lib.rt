//! What the documents of a bundle name, found in tables.
#![tactic(auto)]

mod around;
mod closing;
mod connecting;
mod directory;
mod graph;
mod layout;
mod links;
mod marks;
mod named;
mod reach;
mod rows;
mod run_size;
mod runs;
mod search;
mod tables;
mod totals;

pub use closing::closure_of;
pub use connecting::connections;
pub use directory::Directory;
pub use layout::Layout;
pub use links::Links;
pub use reach::Reach;
