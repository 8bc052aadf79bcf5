ghost use Rattle.std.specs.Prelude.{◌≡◌, map, IfOk, option_map};
ghost use Rattle.fly_writers.specs.Json.{message, optional_list, optional_map};
ghost use Rattle.fly_writers.specs.Built.{data_of};
ghost use Rattle.fly_writers.specs.Bindings.{node_name as name_of_node, reference_fields, bound_json, bound_entry, binding_json};

use crate::json::{Elements, Json, Message};
use crate::literals::scalar_value;
use crate::message::{message_of, message_with};
use fly_docs::{Binding, Bound, START_NODE};
use fly_types::{NoMemory, Text};
use std::alloc::Global;

/// The node of a promise; an empty one stands for the workflow's inputs too.
fn node_name(node: &Text) -> &str
    ensures { result.now ≡ name_of_node node.now }
{
    if node.is_empty() {
        START_NODE
    } else {
        node.as_str()
    }
}

fn reference_value(alloc: Global, node: &Text, var: &Text) -> Result<Json, NoMemory>
    ensures { IfOk result (λ j. data_of j ≡ message (reference_fields node.now var.now)) }
{
    let mut message = Message::new(alloc);
    message.text("nodeId", node_name(node))?;
    message.text("var", var.as_str())?;
    Ok(message.into_json())
}

/// What is bound.
#[cycle(bound_value)]
#[tactic(auto, using(std::proofs::lemmas::Grind::common_steps, crate::proofs::Layers::bound_variants))]
fn bound_value(alloc: Global, bound: &Bound) -> Result<Json, NoMemory>
    ensures { IfOk result (λ j. data_of j ≡ bound_json bound.now) }
{
    match bound {
        Bound::Scalar(literal) => {
            let scalar = scalar_value(alloc, literal)?;
            message_of(alloc, "scalar", scalar)
        }
        Bound::Collection(elements) => {
            let elements = bounds_value(alloc, elements.as_slice())?;
            let collection = message_with(alloc, "bindings", elements)?;
            message_of(alloc, "collection", collection)
        }
        Bound::Map(entries) => {
            let entries = entries_value(alloc, entries.as_slice())?;
            let map = message_with(alloc, "bindings", entries)?;
            message_of(alloc, "map", map)
        }
        Bound::Promise { node, var } => {
            let reference = reference_value(alloc, node, var)?;
            message_of(alloc, "promise", reference)
        }
    }
}

#[cycle(bound_value)]
fn bounds_value(alloc: Global, bounds: &[Bound]) -> Result<Option<Json>, NoMemory>
    ensures { IfOk result (λ o. option_map data_of o ≡ optional_list (map bound_json bounds.now)) }
{
    let mut values = Elements::with_capacity(alloc, bounds.len())?;
    for bound in bounds {
        values.push(bound_value(alloc, bound)?)?;
    }
    Ok(values.into_optional())
}

#[cycle(bound_value)]
fn entries_value(alloc: Global, entries: &[(Text, Bound)]) -> Result<Option<Json>, NoMemory>
    ensures { IfOk result (λ o. option_map data_of o ≡ optional_map (map bound_entry entries.now)) }
{
    let mut message = Message::new(alloc);
    for (name, bound) in entries {
        message.put(name.as_str(), bound_value(alloc, bound)?)?;
    }
    Ok(message.into_optional())
}

fn binding_value(alloc: Global, binding: &Binding) -> Result<Json, NoMemory>
    ensures { IfOk result (λ j. data_of j ≡ binding_json binding.now) }
{
    let mut message = Message::new(alloc);
    message.text("var", binding.var.as_str())?;
    message.put("binding", bound_value(alloc, &binding.bound)?)?;
    Ok(message.into_json())
}

/// Bindings as a list, which is left out where it is empty.
pub fn bindings_value(alloc: Global, bindings: &[Binding]) -> Result<Option<Json>, NoMemory>
    ensures { IfOk result (λ o. option_map data_of o ≡ optional_list (map binding_json bindings.now)) }
{
    let mut values = Elements::with_capacity(alloc, bindings.len())?;
    for binding in bindings {
        values.push(binding_value(alloc, binding)?)?;
    }
    Ok(values.into_optional())
}
