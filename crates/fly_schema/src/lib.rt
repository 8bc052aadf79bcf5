//! Messages of documents as a table of rows, and the walk that finds the first fault of a JSON tree against a row.
#![tactic(auto)]

mod fault;
mod lookups;
mod places;
mod rules;
mod scalars;
mod structs;
mod table;
mod walk;

pub use fault::{DocFault, DocKind};
pub use lookups::find_field;
pub use table::{
    EnumValue, Field, Form, Instead, Kind, LeftOut, Level, Name, Need, Part, Row, Scalar, Shape,
    TextForm, When,
};
pub use walk::first_fault;
