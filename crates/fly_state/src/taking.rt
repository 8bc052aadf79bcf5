//! What a task node takes in a state, and what the run gives.
ghost use Rattle.std.specs.Prelude.{◌≡◌, ◌<◌, [], Some, None, length};
ghost use Rattle.fly_docs.specs.declared.workflow.Workflow as workflow;
ghost use Rattle.fly_docs.specs.Lookups.{primary_of};
ghost use Rattle.fly_docs.specs.Plans.{PlanNode};
ghost use Rattle.fly_docs.specs.SlotInputs.{workflow_outputs};
ghost use Rattle.fly_state.specs.Inputs.{inputs_of_node};
ghost use Rattle.fly_state.specs.Plans.{node_numbered};
ghost use Rattle.fly_state.specs.States.{known_in};
ghost use Rattle.fly_state.specs.Values.{IsTaken, HasKnownTypes};

use crate::values::{ValueFault, take_variables};
use crate::{ExecState, Plan};
use fly_types::LiteralMap;
use std::alloc::Global;

/// What the task node of this number takes by its bindings, each literal as one of its input's type.
///
/// Answers `Outside` with the first text, by the names of the inputs, that no value of its enum is, `Unknown` where the node
/// promises from one that has no outputs, and `NoMemory`.
pub fn task_inputs(
    alloc: Global,
    plan: &Plan,
    state: &ExecState,
    number: u32,
) -> Result<LiteralMap, ValueFault>
    requires known { HasKnownTypes plan.now state.now }
    requires number { number < length plan.now.nodes }
    ensures { (n : PlanNode) → node_numbered plan.now number ≡ Some n → IsTaken (inputs_of_node plan.now state.now n None) result }
{
    plan.primary();
    let Some(task) = plan.task(number) else {
        return Err(ValueFault::Unknown);
    };
    take_variables(
        alloc,
        plan,
        state,
        task.interface.inputs.as_slice(),
        &plan.node(number).inputs,
        plan.bindings(number),
    )
}

/// What the run gives by the bindings of its outputs, each literal as one of its output's type.
///
/// Answers as `task_inputs` does.
pub fn run_outputs(alloc: Global, plan: &Plan, state: &ExecState) -> Result<LiteralMap, ValueFault>
    requires { HasKnownTypes plan.now state.now }
    ensures { (w : workflow.Workflow) → primary_of plan.now.documents ≡ Some w
        → IsTaken (workflow_outputs plan.now.documents w (known_in plan.now state.now [])) result }
{
    let primary = plan.primary();
    take_variables(
        alloc,
        plan,
        state,
        primary.interface.outputs.as_slice(),
        &primary.outputs,
        plan.output_bindings(),
    )
}
