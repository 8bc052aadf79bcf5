//! The conditions of branches: expressions over variables and literals, their faults, and their truth.
#![tactic(auto)]

mod expr;
mod faults;
mod laws;
mod lookup;
mod truth_value;

pub use expr::{Comparison, Conjunction, Expr, Operand};
pub use faults::{ExprFault, expr_fault};
pub use laws::{faultless_stays, moments_are_ordered, opposites_differ, order_is_total};
pub use truth_value::truth;
