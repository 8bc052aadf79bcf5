//! Why a bundle is refused: its faults as definitions, the law that there are none exactly where the bundle is typed and
//! acyclic, and what needs no table of its documents: the texts of a report, the types of outputs, and templates.
#![tactic(auto)]

mod fault;
mod laws;
mod output_type;
mod report;
mod template_faults;
mod templates;
mod type_text;

pub use fault::{Code, CompileFault, Fault};
pub use laws::no_faults_exactly_where_typed;
pub use output_type::{Origin, OutputType, if_primitive};
pub use report::{concatenated, element_place, report_at, report_with, variable_place};
pub use template_faults::push_template_faults;
pub use templates::template_name;
pub use type_text::{joined, quoted, text_of_type};
