ghost use Rattle.std.specs.Prelude.{◌≡◌, IfOk, string_bytes};
ghost use Rattle.serde_json.specs.View.{view};
ghost use Rattle.fly_values.specs.Types.{variable_value, variables_value, interface_value};

use crate::fields::{fields_of, take};
use crate::types::{TYPE_DEPTH, type_from};
use fly_docs::Interface;
use fly_types::{List, NoMemory, Text, Variable};
use serde_json::Value;
use std::alloc::Global;

/// A `TypedInterface`. Each list is sorted by name, as the keys of an object are.
#[tactic(auto, unfolding(crate::specs::Types::interface_value))]
pub fn interface_from(alloc: Global, value: Value) -> Result<Interface, NoMemory>
    ensures { IfOk result (λ i. i ≡ interface_value (view value)) }
{
    let mut fields = fields_of(alloc, value);
    let inputs = take(&mut fields, "inputs", "inputs");
    let outputs = take(&mut fields, "outputs", "outputs");
    Ok(Interface {
        inputs: variables_from(alloc, inputs)?,
        outputs: variables_from(alloc, outputs)?,
    })
}

fn variables_from(alloc: Global, value: Value) -> Result<List<Variable>, NoMemory>
    ensures { IfOk result (λ vs. vs ≡ variables_value (view value)) }
{
    let mut fields = fields_of(alloc, value);
    let entries = fields_of(alloc, take(&mut fields, "variables", "variables"));
    let mut made = Vec::with_capacity(alloc, entries.len())?;
    for (name, value) in entries {
        made.push(variable_from(alloc, name, value)?)?;
    }
    Ok(List::from_vec(made))
}

#[tactic(auto, unfolding(crate::specs::Types::variable_value))]
fn variable_from(alloc: Global, name: String, value: Value) -> Result<Variable, NoMemory>
    ensures { IfOk result (λ v. v ≡ variable_value (string_bytes name, view value)) }
{
    let mut fields = fields_of(alloc, value);
    let kind = take(&mut fields, "type", "type");
    Ok(Variable {
        name: Text::from_string(name),
        kind: type_from(alloc, TYPE_DEPTH, kind)?,
    })
}
