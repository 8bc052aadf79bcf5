//! The documents of a workflow: identifiers, interfaces, tasks, nodes, workflows, bundles and closures.
#![tactic(auto)]

mod attempt_name;
mod binding;
mod checks;
mod closure;
mod dataset;
mod interface;
mod names;
mod naming;
mod node;
mod submission;
mod task;
mod workflow;

pub use attempt_name::AttemptName;
pub use binding::{Binding, Bound};
pub use checks::{are_in_order, is_field, is_id, is_identifier};
pub use closure::{Closure, Connections};
pub use dataset::DatasetId;
pub use interface::Interface;
pub use names::{END_NODE, Identifier, START_NODE};
pub use naming::{NameFault, print_name, read_name, read_number};
pub use node::{Case, Node, Target};
pub use submission::Submission;
pub use task::Task;
pub use workflow::{Bundle, Workflow};
