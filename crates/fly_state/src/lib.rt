//! What an execution is while it runs, which moves are legal, and the plan that they go by.
#![tactic(auto)]

mod checks;
mod cited;
mod closing;
mod converts;
mod effects;
mod entries;
mod faults;
mod fits;
mod inputs;
mod laws;
mod legal;
mod looks;
mod moves;
mod node_slots;
mod origins;
mod phase;
mod plan;
mod reads;
mod root_slot;
mod settling;
mod sites;
mod slots;
mod standing;
mod steps;
mod tables;
mod taking;
mod values;
mod view;

pub use closing::{has_failure, misses_output};
pub use effects::{Effect, effect_of};
pub use entries::{Entry, Op, Reply};
pub use faults::InputFault;
pub use inputs::inputs_of;
pub use laws::{first_states_are_of_plan, moves_leave_final_slots, rounds_stay_of_plan};
pub use legal::legal_move;
pub use moves::{At, Move, Step};
pub use phase::Phase;
pub use plan::Plan;
pub use reads::phase_at;
pub use slots::{ExecState, NodeState, SlotState};
pub use standing::{Standing, standings};
pub use steps::{can_run_close, is_run_broken, is_step};
pub use taking::{run_outputs, task_inputs};
pub use values::ValueFault;
pub use view::{Known, View};
