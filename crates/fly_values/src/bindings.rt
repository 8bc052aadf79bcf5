ghost use Rattle.std.specs.Prelude.{◌≡◌, IfOk};
ghost use Rattle.serde_json.specs.View.{view, members_view};
ghost use Rattle.fly_docs.specs.Bindings.{source_node};
ghost use Rattle.fly_values.specs.Bindings.{promise_value, plain_bound, bound_elements_by, bound_entries_by, bound_by, bound_at, binding_value};

use crate::fields::{fields_of, items_of, take, take_member, text_from};
use crate::lists::FromJson;
use crate::literals::scalar_from;
use fly_docs::{Binding, Bound, START_NODE};
use fly_types::{List, NoMemory, Text};
use serde_json::{Map, Value};
use std::alloc::Global;

/// How deep the parts of what is bound may lie in each other: it has at most 16 levels of collections and maps.
const BOUND_DEPTH: usize = 16;

/// An `OutputReference`. Without a node it is an input of the workflow.
#[tactic(auto, unfolding(crate::specs::Bindings::promise_value))]
fn promise_from(alloc: Global, value: Value) -> Result<Bound, NoMemory>
    ensures { IfOk result (λ b. b ≡ promise_value (view value)) }
{
    let mut fields = fields_of(alloc, value);
    let node = text_from(alloc, take(&mut fields, "nodeId", "node_id"));
    Ok(Bound::Promise {
        node: source_from(alloc, node)?,
        var: text_from(alloc, take(&mut fields, "var", "var")),
    })
}

/// The node that an id names: an empty one is the start.
fn source_from(alloc: Global, node: Text) -> Result<Text, NoMemory>
    ensures { IfOk result (λ t. t ≡ source_node node) }
{
    if node.is_empty() {
        Text::from_str(alloc, START_NODE)
    } else {
        Ok(node)
    }
}

/// What is bound, where it is no collection and no map.
#[tactic(auto, unfolding(crate::specs::Bindings::plain_bound))]
fn plain_bound_from(alloc: Global, fields: Map<String, Value>) -> Result<Bound, NoMemory>
    ensures { IfOk result (λ b. b ≡ plain_bound (members_view fields.entries)) }
{
    let mut fields = fields;
    if let Some(value) = take_member(&mut fields, "promise", "promise") {
        return promise_from(alloc, value);
    }
    let scalar = take(&mut fields, "scalar", "scalar");
    Ok(Bound::Scalar(scalar_from(alloc, scalar)?))
}

/// What is bound, where parts lie in each other no deeper than this.
#[cycle(bounds)]
fn bound_from(alloc: Global, depth: usize, value: Value) -> Result<Bound, NoMemory>
    ensures { IfOk result (λ b. b ≡ bound_at depth (view value)) }
{
    let fields = fields_of(alloc, value);
    if depth == 0 {
        plain_bound_from(alloc, fields)
    } else {
        bound_of_parts(alloc, depth - 1, fields)
    }
}

#[cycle(bounds)]
fn bound_of_parts(
    alloc: Global,
    depth: usize,
    fields: Map<String, Value>,
) -> Result<Bound, NoMemory>
    ensures { IfOk result (λ b. b ≡ bound_by (bound_at depth) (members_view fields.entries)) }
{
    let mut fields = fields;
    if let Some(value) = take_member(&mut fields, "collection", "collection") {
        return Ok(Bound::Collection(elements_from(alloc, depth, value)?));
    }
    if let Some(value) = take_member(&mut fields, "map", "map") {
        return Ok(Bound::Map(entries_from(alloc, depth, value)?));
    }
    plain_bound_from(alloc, fields)
}

#[cycle(bounds)]
fn elements_from(alloc: Global, depth: usize, value: Value) -> Result<List<Bound>, NoMemory>
    ensures { IfOk result (λ bs. bs ≡ bound_elements_by (bound_at depth) (view value)) }
{
    let mut fields = fields_of(alloc, value);
    let items = items_of(alloc, take(&mut fields, "bindings", "bindings"));
    let mut made = Vec::with_capacity(alloc, items.len())?;
    for item in items {
        made.push(bound_from(alloc, depth, item)?)?;
    }
    Ok(List::from_vec(made))
}

#[cycle(bounds)]
fn entries_from(alloc: Global, depth: usize, value: Value) -> Result<List<(Text, Bound)>, NoMemory>
    ensures { IfOk result (λ es. es ≡ bound_entries_by (bound_at depth) (view value)) }
{
    let mut fields = fields_of(alloc, value);
    let entries = fields_of(alloc, take(&mut fields, "bindings", "bindings"));
    let mut made = Vec::with_capacity(alloc, entries.len())?;
    for (name, value) in entries {
        made.push((Text::from_string(name), bound_from(alloc, depth, value)?))?;
    }
    Ok(List::from_vec(made))
}

impl FromJson for Binding {
    ghost use Rattle.fly_values.specs.Bindings.{binding_value};

    ghost of = { binding_value };

    #[tactic(auto, unfolding(crate::specs::Bindings::binding_value))]
    fn from_json(alloc: Global, value: Value) -> Result<Binding, NoMemory> {
        let mut fields = fields_of(alloc, value);
        let bound = take(&mut fields, "binding", "binding");
        Ok(Binding {
            var: text_from(alloc, take(&mut fields, "var", "var")),
            bound: bound_from(alloc, BOUND_DEPTH, bound)?,
        })
    }
}
