//! The store of executions as one history of entries: what each operation answers and changes, which journals are legal,
//! and the laws of every legal journal.
#![tactic(auto)]

mod admission;
mod answers;
mod attempts;
mod cache;
mod called;
mod effects;
mod laws;
mod spots;
mod store;
mod stored;
mod submissions;
mod telling;
mod ticks;
mod versions;
mod views;
mod work;
mod world;
mod writes;

pub use admission::AdmitFault;
pub use called::Called;
pub use laws::{
    final_slots_stay, journals_leave_one_world, launches_are_single, legal_prefixes,
    moments_never_fall, names_are_of_plan, outcomes_stay, records_are_typed, reservations_hold,
    steps_extend, timeouts_are_due, versions_are_shaped, versions_stay, views_stay,
    worlds_are_of_plan, worlds_tell_journals, writes_are_rounds,
};
pub use stored::Stored;
pub use work::Work;
pub use world::World;
