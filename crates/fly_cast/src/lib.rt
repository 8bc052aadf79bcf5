//! Which literal types cast to which, what a literal becomes there, and how plain values fit a type.
#![tactic(auto)]

mod castable;
mod conversion;
mod fitting;
mod laws;
mod plan;

pub use castable::is_castable;
pub use conversion::{ConvertFault, convert};
pub use fitting::{FitFault, does_fit, fit};
pub use laws::{
    equal_types_change_nothing, members_fit_as_they_are, membership_is_decided, rules_decide,
    wanted_types_are_reached,
};
