//! The inputs of a slot.
ghost use Rattle.std.specs.Prelude.{IsTrue, Some, None, Ok, option_to_list};
ghost use Rattle.std.specs.List.{list_any};
ghost use Rattle.fly_state.specs.OfPlan.{IsOfPlan, may_ask_inputs, may_ask_inputs_at};
ghost use Rattle.fly_state.specs.Inputs.{IsAnswer, inputs_at};
ghost use Rattle.fly_state.specs.Plans.{node_numbered};

use crate::values::{ValueFault, take_variables};
use crate::{At, ExecState, InputFault, Plan};
use fly_types::{LiteralMap, NoMemory};
use std::alloc::Global;

/// The inputs of a slot whose inputs may be asked for at a state of the plan: of a node the literals that its bindings
/// give, each as one of its input's type, and of the root what was submitted. They are copies. Costs what they cost.
///
/// Answers `EnumOutside` with the first text, by the names of the inputs, that no value of its enum is, and `NoMemory`.
pub fn inputs_of(alloc: Global, p: &Plan, s: &ExecState, at: &At) -> Result<LiteralMap, InputFault>
    requires of_plan { IsOfPlan p.now s.now }
    requires asked { IsTrue (may_ask_inputs_at p.now s.now at.now) }
    ensures { IsAnswer (inputs_at p.now s.now at.now) result }
{
    p.primary();
    match at.node {
        Some(number) => match at.item {
            None => inputs_of_node(alloc, p, s, number),
            Some(_) => unreachable!(),
        },
        None => match &s.root.inputs {
            Some(inputs) => copied(alloc, inputs),
            None => unreachable!(),
        },
    }
}

/// The inputs of a node.
fn inputs_of_node(
    alloc: Global,
    p: &Plan,
    s: &ExecState,
    number: u32,
) -> Result<LiteralMap, InputFault>
    requires of_plan { IsOfPlan p.now s.now }
    requires asked { IsTrue (list_any (may_ask_inputs p.now s.now number) (option_to_list (node_numbered p.now number))) }
    ensures { IsAnswer (inputs_at p.now s.now (record { node = Some number; item = None })) result }
{
    p.primary();
    let Some(task) = p.task(number) else {
        unreachable!();
    };
    match take_variables(
        alloc,
        p,
        s,
        task.interface.inputs.as_slice(),
        &p.node(number).inputs,
        p.bindings(number),
    ) {
        Ok(inputs) => Ok(inputs),
        Err(ValueFault::Outside(text)) => Err(InputFault::EnumOutside { text }),
        Err(ValueFault::Unknown) => unreachable!(),
        Err(ValueFault::NoMemory) => Err(InputFault::NoMemory),
    }
}

fn copied(alloc: Global, inputs: &LiteralMap) -> Result<LiteralMap, InputFault>
    ensures { IsAnswer (Ok inputs.now) result }
{
    match inputs.copy(alloc) {
        Ok(copy) => Ok(copy),
        Err(NoMemory) => Err(InputFault::NoMemory),
    }
}
