//! Workers: one makes turns over the store of a run, each a round with its reads, its claim and its child, until every
//! execution is over.
#![tactic(auto)]

mod asking;
mod children;
mod closing;
mod driving;
mod keep;
mod memory_keep;
mod opening;
mod replies;
mod service;
mod settling;
mod steps;
mod turn;
mod turn_end;

pub use driving::{DriveFault, drive_alone};
pub use keep::{Keep, KeepFault};
pub use memory_keep::MemKeep;
pub use steps::Steps;
pub use turn::turn_alone;
pub use turn_end::TurnEnd;
