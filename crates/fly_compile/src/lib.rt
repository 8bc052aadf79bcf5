//! The compiler of bundles: why a bundle is refused. Its definitions say every fault of a bundle, and their texts.
#![tactic(auto)]

mod array_faults;
mod binding_faults;
mod bundle_faults;
mod compiler;
mod condition_faults;
mod fits;
mod misfits;
mod node_checks;
mod node_faults;
mod node_inputs;
mod outputs;
mod promises;
mod run_faults;
mod site;
mod sources;
mod workflow_faults;

pub use compiler::compile;
pub use fly_faults::{Code, CompileFault, Fault, no_faults_exactly_where_typed};
