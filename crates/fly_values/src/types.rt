ghost use Rattle.std.specs.Prelude.{◌≡◌, IfOk};
ghost use Rattle.serde_json.specs.View.{view, members_view};
ghost use Rattle.fly_values.specs.Types.{simple_value, blob_type_value, enum_values, last_type, plain_type, type_by, type_at, variant_values};

use crate::fields::{fields_of, is_called, items_of, take, take_member, text_from};
use crate::lists::list_from;
use fly_types::{BlobType, Boxed, List, LiteralType, NoMemory, Simple, Text};
use serde_json::{Map, Value};
use std::alloc::Global;

/// How deep the parts of a type may lie in each other: a type has at most 16 levels.
pub const TYPE_DEPTH: usize = 15;

#[tactic(auto, unfolding(crate::specs::Types::simple_value))]
fn simple_from(value: Value) -> Simple
    ensures { result ≡ simple_value (view value) }
{
    if is_called(&value, "INTEGER", 1) {
        Simple::Integer
    } else if is_called(&value, "STRING", 3) {
        Simple::Text
    } else if is_called(&value, "BOOLEAN", 4) {
        Simple::Boolean
    } else if is_called(&value, "DATETIME", 5) {
        Simple::Datetime
    } else if is_called(&value, "DURATION", 6) {
        Simple::Duration
    } else if is_called(&value, "BINARY", 7) {
        Simple::Binary
    } else if is_called(&value, "ERROR", 8) {
        Simple::Error
    } else if is_called(&value, "STRUCT", 9) {
        Simple::Struct
    } else {
        Simple::None
    }
}

#[tactic(auto, unfolding(crate::specs::Types::blob_type_value))]
pub fn blob_type_from(alloc: Global, value: Value) -> BlobType
    ensures { result ≡ blob_type_value (view value) }
{
    let mut fields = fields_of(alloc, value);
    let dimensionality = take(&mut fields, "dimensionality", "dimensionality");
    BlobType {
        format: text_from(alloc, take(&mut fields, "format", "format")),
        multipart: is_called(&dimensionality, "MULTIPART", 1),
    }
}

#[tactic(auto, unfolding(crate::specs::Types::plain_type), using(crate::proofs::FieldLemmas::member_same))]
fn plain_type_from(alloc: Global, fields: Map<String, Value>) -> Result<LiteralType, NoMemory>
    ensures { IfOk result (λ t. t ≡ plain_type (members_view fields.entries)) }
{
    let mut fields = fields;
    if let Some(blob) = take_member(&mut fields, "blob", "blob") {
        return Ok(LiteralType::Blob(blob_type_from(alloc, blob)));
    }
    if let Some(values) = take_member(&mut fields, "enumType", "enum_type") {
        return Ok(LiteralType::Enum(enum_values_from(alloc, values)?));
    }
    let simple = take(&mut fields, "simple", "simple");
    Ok(LiteralType::Simple(simple_from(simple)))
}

#[tactic(auto, unfolding(crate::specs::Types::enum_values))]
fn enum_values_from(alloc: Global, value: Value) -> Result<List<Text>, NoMemory>
    ensures { IfOk result (λ l. l ≡ enum_values (view value)) }
{
    let mut fields = fields_of(alloc, value);
    list_from(alloc, take(&mut fields, "values", "values"))
}

/// A type at the last level, where a union has no variants.
#[tactic(auto, unfolding(crate::specs::Types::last_type))]
fn last_type_from(alloc: Global, fields: Map<String, Value>) -> Result<LiteralType, NoMemory>
    ensures { IfOk result (λ t. t ≡ last_type (members_view fields.entries)) }
{
    let mut fields = fields;
    if let Some(_union) = take_member(&mut fields, "unionType", "union_type") {
        return Ok(LiteralType::Union(List::from_vec(Vec::new(alloc))));
    }
    plain_type_from(alloc, fields)
}

/// The type whose parts lie in each other no deeper than this.
#[cycle(types)]
pub fn type_from(alloc: Global, depth: usize, value: Value) -> Result<LiteralType, NoMemory>
    ensures { IfOk result (λ t. t ≡ type_at depth (view value)) }
{
    let fields = fields_of(alloc, value);
    if depth == 0 {
        last_type_from(alloc, fields)
    } else {
        type_of_parts(alloc, depth - 1, fields)
    }
}

#[cycle(types)]
#[tactic(auto, unfolding(crate::specs::Types::type_by), using(crate::proofs::FieldLemmas::member_same))]
fn type_of_parts(
    alloc: Global,
    depth: usize,
    fields: Map<String, Value>,
) -> Result<LiteralType, NoMemory>
    ensures { IfOk result (λ t. t ≡ type_by (type_at depth) (members_view fields.entries)) }
{
    let mut fields = fields;
    if let Some(element) = take_member(&mut fields, "collectionType", "collection_type") {
        let element = type_from(alloc, depth, element)?;
        return Ok(LiteralType::Collection(Boxed::new(alloc, element)?));
    }
    if let Some(value) = take_member(&mut fields, "mapValueType", "map_value_type") {
        let value = type_from(alloc, depth, value)?;
        return Ok(LiteralType::Map(Boxed::new(alloc, value)?));
    }
    if let Some(union) = take_member(&mut fields, "unionType", "union_type") {
        return Ok(LiteralType::Union(variants_from(alloc, depth, union)?));
    }
    plain_type_from(alloc, fields)
}

#[cycle(types)]
fn variants_from(alloc: Global, depth: usize, value: Value) -> Result<List<LiteralType>, NoMemory>
    ensures { IfOk result (λ ts. ts ≡ variant_values (type_at depth) (view value)) }
{
    let mut fields = fields_of(alloc, value);
    let variants = items_of(alloc, take(&mut fields, "variants", "variants"));
    let mut made = Vec::with_capacity(alloc, variants.len())?;
    for variant in variants {
        made.push(type_from(alloc, depth, variant)?)?;
    }
    Ok(List::from_vec(made))
}
