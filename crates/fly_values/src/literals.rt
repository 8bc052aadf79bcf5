ghost use Rattle.std.specs.Prelude.{◌≡◌, IfOk};
ghost use Rattle.serde_json.specs.View.{view, members_view};
ghost use Rattle.fly_values.specs.Fields.{members_in};
ghost use Rattle.fly_values.specs.Literals as spec;
ghost use Rattle.fly_values.specs.Literals.{primitive_value, blob_value, binary_value, error_value, plain_scalar, union_by, scalar_by, scalar_value, elements_by, entries_by, literal_by, literal_at, literal_map_value};

use crate::fields::{fields_of, items_of, take, take_member, text_from, truth_from};
use crate::scalars::{bytes_from, datetime_from, duration_from, integer_from};
use crate::trees::struct_from;
use crate::types::{TYPE_DEPTH, blob_type_from, type_from};
use fly_types::{Boxed, List, Literal, LiteralMap, NoMemory, Text};
use serde_json::{Map, Value};
use std::alloc::Global;

/// How deep the parts of a literal may lie in each other: it has at most 16 levels of collections, maps and unions.
const LITERAL_DEPTH: usize = 16;

/// How deep the parts of the value of a union may lie in each other.
const UNION_DEPTH: usize = 15;

#[tactic(auto, unfolding(crate::specs::Literals::primitive_by))]
fn primitive_from(alloc: Global, value: Value) -> Literal
    ensures { result ≡ primitive_value (view value) }
{
    let mut fields = fields_of(alloc, value);
    if let Some(value) = take_member(&mut fields, "integer", "integer") {
        return Literal::Integer(integer_from(&value));
    }
    if let Some(value) = take_member(&mut fields, "stringValue", "string_value") {
        return Literal::Text(text_from(alloc, value));
    }
    if let Some(value) = take_member(&mut fields, "boolean", "boolean") {
        return Literal::Boolean(truth_from(value));
    }
    if let Some(value) = take_member(&mut fields, "datetime", "datetime") {
        return datetime_literal(&value);
    }
    if let Some(value) = take_member(&mut fields, "duration", "duration") {
        return duration_literal(&value);
    }
    Literal::None
}

fn datetime_literal(value: &Value) -> Literal
    ensures { result ≡ spec.datetime_literal (view value.now) }
{
    let moment = datetime_from(value);
    Literal::Datetime {
        seconds: moment.seconds,
        nanos: moment.nanos,
    }
}

fn duration_literal(value: &Value) -> Literal
    ensures { result ≡ spec.duration_literal (view value.now) }
{
    let span = duration_from(value);
    Literal::Duration {
        seconds: span.seconds,
        nanos: span.nanos,
    }
}

#[tactic(auto, unfolding(crate::specs::Literals::blob_value))]
fn blob_from(alloc: Global, value: Value) -> Literal
    ensures { result ≡ blob_value (view value) }
{
    let mut fields = fields_of(alloc, value);
    let mut metadata = fields_of(alloc, take(&mut fields, "metadata", "metadata"));
    Literal::Blob {
        uri: text_from(alloc, take(&mut fields, "uri", "uri")),
        form: blob_type_from(alloc, take(&mut metadata, "type", "type")),
    }
}

#[tactic(auto, unfolding(crate::specs::Literals::binary_value))]
fn binary_from(alloc: Global, value: Value) -> Result<Literal, NoMemory>
    ensures { IfOk result (λ l. l ≡ binary_value (view value)) }
{
    let mut fields = fields_of(alloc, value);
    let bytes = take(&mut fields, "value", "value");
    Ok(Literal::Binary {
        value: bytes_from(alloc, &bytes)?,
        tag: text_from(alloc, take(&mut fields, "tag", "tag")),
    })
}

#[tactic(auto, unfolding(crate::specs::Literals::error_value))]
fn error_from(alloc: Global, value: Value) -> Literal
    ensures { result ≡ error_value (view value) }
{
    let mut fields = fields_of(alloc, value);
    Literal::Error {
        node: text_from(alloc, take(&mut fields, "failedNodeId", "failed_node_id")),
        message: text_from(alloc, take(&mut fields, "message", "message")),
    }
}

/// A scalar that is no union.
#[tactic(auto, unfolding(crate::specs::Literals::plain_scalar))]
fn plain_scalar_from(alloc: Global, fields: Map<String, Value>) -> Result<Literal, NoMemory>
    ensures { IfOk result (λ l. l ≡ plain_scalar (members_view fields.entries)) }
{
    let mut fields = fields;
    if let Some(value) = take_member(&mut fields, "primitive", "primitive") {
        return Ok(primitive_from(alloc, value));
    }
    if let Some(value) = take_member(&mut fields, "blob", "blob") {
        return Ok(blob_from(alloc, value));
    }
    if let Some(value) = take_member(&mut fields, "binary", "binary") {
        return binary_from(alloc, value);
    }
    if let Some(value) = take_member(&mut fields, "error", "error") {
        return Ok(error_from(alloc, value));
    }
    if let Some(value) = take_member(&mut fields, "generic", "generic") {
        return Ok(Literal::Generic(struct_from(alloc, value)?));
    }
    Ok(Literal::None)
}

/// The literal whose parts lie in each other no deeper than this.
#[cycle(literals)]
fn literal_from(alloc: Global, depth: usize, value: Value) -> Result<Literal, NoMemory>
    ensures { IfOk result (λ l. l ≡ literal_at depth (view value)) }
{
    let mut fields = fields_of(alloc, value);
    if depth == 0 {
        let scalar = fields_of(alloc, take(&mut fields, "scalar", "scalar"));
        plain_scalar_from(alloc, scalar)
    } else {
        literal_of_parts(alloc, depth - 1, fields)
    }
}

#[cycle(literals)]
fn literal_of_parts(
    alloc: Global,
    depth: usize,
    fields: Map<String, Value>,
) -> Result<Literal, NoMemory>
    ensures { IfOk result (λ l. l ≡ literal_by (literal_at depth) (members_view fields.entries)) }
{
    let mut fields = fields;
    if let Some(value) = take_member(&mut fields, "collection", "collection") {
        return Ok(Literal::Collection(elements_from(alloc, depth, value)?));
    }
    if let Some(value) = take_member(&mut fields, "map", "map") {
        return Ok(Literal::Map(entries_from(alloc, depth, value)?));
    }
    let scalar = take(&mut fields, "scalar", "scalar");
    scalar_of_parts(alloc, depth, scalar)
}

#[cycle(literals)]
fn scalar_of_parts(alloc: Global, depth: usize, value: Value) -> Result<Literal, NoMemory>
    ensures { IfOk result (λ l. l ≡ scalar_by (literal_at depth) (members_in (view value))) }
{
    let mut fields = fields_of(alloc, value);
    if let Some(value) = take_member(&mut fields, "union", "union") {
        return union_from(alloc, depth, value);
    }
    plain_scalar_from(alloc, fields)
}

#[cycle(literals)]
fn union_from(alloc: Global, depth: usize, value: Value) -> Result<Literal, NoMemory>
    ensures { IfOk result (λ l. l ≡ union_by (literal_at depth) (view value)) }
{
    let mut fields = fields_of(alloc, value);
    let inner = literal_from(alloc, depth, take(&mut fields, "value", "value"))?;
    let variant = type_from(alloc, TYPE_DEPTH, take(&mut fields, "type", "type"))?;
    Ok(Literal::Union {
        value: Boxed::new(alloc, inner)?,
        variant: Boxed::new(alloc, variant)?,
    })
}

#[cycle(literals)]
fn elements_from(alloc: Global, depth: usize, value: Value) -> Result<List<Literal>, NoMemory>
    ensures { IfOk result (λ ls. ls ≡ elements_by (literal_at depth) (view value)) }
{
    let mut fields = fields_of(alloc, value);
    let items = items_of(alloc, take(&mut fields, "literals", "literals"));
    let mut made = Vec::with_capacity(alloc, items.len())?;
    for item in items {
        made.push(literal_from(alloc, depth, item)?)?;
    }
    Ok(List::from_vec(made))
}

#[cycle(literals)]
fn entries_from(
    alloc: Global,
    depth: usize,
    value: Value,
) -> Result<List<(Text, Literal)>, NoMemory>
    ensures { IfOk result (λ es. es ≡ entries_by (literal_at depth) (view value)) }
{
    let mut fields = fields_of(alloc, value);
    let entries = fields_of(alloc, take(&mut fields, "literals", "literals"));
    let mut made = Vec::with_capacity(alloc, entries.len())?;
    for (name, value) in entries {
        made.push((Text::from_string(name), literal_from(alloc, depth, value)?))?;
    }
    Ok(List::from_vec(made))
}

/// A `Scalar` alone.
pub fn scalar_from(alloc: Global, value: Value) -> Result<Literal, NoMemory>
    ensures { IfOk result (λ l. l ≡ scalar_value (view value)) }
{
    scalar_of_parts(alloc, UNION_DEPTH, value)
}

/// A `LiteralMap`.
#[tactic(auto, unfolding(crate::specs::Literals::literal_map_value))]
pub fn literal_map_from(alloc: Global, value: Value) -> Result<LiteralMap, NoMemory>
    ensures { IfOk result (λ m. m ≡ literal_map_value (view value)) }
{
    Ok(LiteralMap {
        entries: entries_from(alloc, LITERAL_DEPTH, value)?,
    })
}
