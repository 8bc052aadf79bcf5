ghost use Rattle.std.specs.Prelude.{◌≡◌, [], map, IfOk, option_map, string_bytes, IsTrue};
ghost use Rattle.std.specs.Str.{IsUtf8};
ghost use Rattle.fly_types.specs.Sound.{IsInstant};
ghost use Rattle.serde_json.specs.Data.{string, array};
ghost use Rattle.serde_json.specs.View.{items_of};
ghost use Rattle.fly_writers.specs.Json.{message, message_of as message_of_one, optional_list, optional_map, as_fields};
ghost use Rattle.fly_writers.specs.Built.{data_of};
ghost use Rattle.fly_writers.specs.Literals.{tree_json, tree_entry, datetime_json, duration_json, is_written_instant as is_instant, optional_bytes as bytes_unless_empty, blob_fields, binary_fields, error_fields, union_fields, literal_json, literal_entry, scalar_json, primitive_json, literal_text, literal_map_text};

use crate::json::{Elements, Json, Message};
use crate::message::{message_of, message_with};
use crate::types::{blob_type_value, type_value};
use fly_scalars::{write_bytes, write_datetime, write_duration, write_i64};
use fly_types::{BlobType, Literal, LiteralMap, NoMemory, Text, Tree};
use std::alloc::Global;

/// The JSON of a literal, flyteidl's `Literal`, with no space and with the keys of each object sorted by their bytes.
pub fn write_literal(alloc: Global, literal: &Literal) -> Result<Vec<u8>, NoMemory>
    ensures text { IfOk result (λ text. text.items ≡ literal_text literal.now) }
    ensures utf8 { IfOk result (λ text. IsUtf8 text.items) }
{
    literal_value(alloc, literal)?.to_vec(alloc)
}

/// The JSON of literals by name, flyteidl's `LiteralMap`, with no space and with the keys of each object sorted by their bytes.
pub fn write_literal_map(alloc: Global, map: &LiteralMap) -> Result<Vec<u8>, NoMemory>
    ensures text { IfOk result (λ text. text.items ≡ literal_map_text map.now) }
    ensures utf8 { IfOk result (λ text. IsUtf8 text.items) }
{
    let entries = entries_value(alloc, map.entries.as_slice())?;
    message_with(alloc, "literals", entries)?.to_vec(alloc)
}

/// The content of a STRUCT.
#[cycle(tree_value)]
#[tactic(auto, using(std::proofs::lemmas::Grind::common_steps, crate::proofs::Layers::tree_variants))]
fn tree_value(alloc: Global, tree: &Tree) -> Result<Json, NoMemory>
    ensures { IfOk result (λ j. data_of j ≡ tree_json tree.now) }
{
    match tree {
        Tree::Null => Ok(Json::null()),
        Tree::Bool(value) => Ok(Json::flag(*value)),
        Tree::Whole(value) => Ok(Json::whole(*value)),
        Tree::Text(text) => Json::text(alloc, text.as_str()),
        Tree::List(trees) => trees_value(alloc, trees.as_slice()),
        Tree::Object(members) => members_value(alloc, members.as_slice()),
    }
}

#[cycle(tree_value)]
fn trees_value(alloc: Global, trees: &[Tree]) -> Result<Json, NoMemory>
    ensures { IfOk result (λ j. data_of j ≡ array (items_of (map tree_json trees.now))) }
{
    let mut values = Elements::with_capacity(alloc, trees.len())?;
    for tree in trees {
        values.push(tree_value(alloc, tree)?)?;
    }
    Ok(values.into_json())
}

#[cycle(tree_value)]
fn members_value(alloc: Global, members: &[(Text, Tree)]) -> Result<Json, NoMemory>
    ensures { IfOk result (λ j. data_of j ≡ message (as_fields (map tree_entry members.now))) }
{
    let mut message = Message::new(alloc);
    for (name, tree) in members {
        message.put(name.as_str(), tree_value(alloc, tree)?)?;
    }
    Ok(message.into_json())
}

/// A date-time, where it has a text.
fn datetime_value(alloc: Global, seconds: i64, nanos: u32) -> Result<Option<Json>, NoMemory>
    ensures { IfOk result (λ o. option_map data_of o ≡ datetime_json seconds nanos) }
{
    if !is_written_instant(seconds, nanos) {
        return Ok(None);
    }
    Ok(Some(Json::string(write_datetime(alloc, seconds, nanos)?)))
}

/// Whether a date-time lies from year 1 to year 9999.
fn is_written_instant(seconds: i64, nanos: u32) -> bool
    ensures value { result ≡ is_instant seconds nanos }
    ensures range { IsTrue result → IsInstant seconds nanos }
{
    if seconds < -62_135_596_800 {
        return false;
    }
    if seconds > 253_402_300_799 {
        return false;
    }
    nanos < 1_000_000_000
}

/// A duration, where it has a text.
fn duration_value(alloc: Global, seconds: i64, nanos: i32) -> Result<Option<Json>, NoMemory>
    ensures { IfOk result (λ o. option_map data_of o ≡ duration_json seconds nanos) }
{
    if nanos.unsigned_abs() >= 1_000_000_000 {
        return Ok(None);
    }
    Ok(Some(Json::string(write_duration(alloc, seconds, nanos)?)))
}

/// The value of a primitive type. Another literal is an empty message.
#[tactic(auto, using(std::proofs::lemmas::Grind::common_steps, crate::proofs::Layers::primitive_variants))]
pub fn primitive_value(alloc: Global, literal: &Literal) -> Result<Json, NoMemory>
    ensures { IfOk result (λ j. data_of j ≡ primitive_json literal.now) }
{
    match literal {
        Literal::Integer(value) => text_field(alloc, "integer", write_i64(alloc, *value)?),
        Literal::Text(text) => {
            let text = Json::text(alloc, text.as_str())?;
            message_of(alloc, "stringValue", text)
        }
        Literal::Boolean(value) => message_of(alloc, "boolean", Json::flag(*value)),
        Literal::Datetime { seconds, nanos } => {
            message_with(alloc, "datetime", datetime_value(alloc, *seconds, *nanos)?)
        }
        Literal::Duration { seconds, nanos } => {
            message_with(alloc, "duration", duration_value(alloc, *seconds, *nanos)?)
        }
        Literal::None => Ok(empty(alloc)),
        Literal::Blob { .. } => Ok(empty(alloc)),
        Literal::Binary { .. } => Ok(empty(alloc)),
        Literal::Error { .. } => Ok(empty(alloc)),
        Literal::Generic(_) => Ok(empty(alloc)),
        Literal::Union { .. } => Ok(empty(alloc)),
        Literal::Collection(_) => Ok(empty(alloc)),
        Literal::Map(_) => Ok(empty(alloc)),
    }
}

fn text_field(alloc: Global, name: &str, text: String) -> Result<Json, NoMemory>
    ensures { IfOk result (λ j. data_of j ≡ message_of_one name.now (string (string_bytes text))) }
{
    message_of(alloc, name, Json::string(text))
}

fn empty(alloc: Global) -> Json
    ensures { data_of result ≡ message [] }
{
    Message::new(alloc).into_json()
}

fn blob_value(alloc: Global, uri: &Text, form: &BlobType) -> Result<Json, NoMemory>
    ensures { IfOk result (λ j. data_of j ≡ message (blob_fields uri.now form.now)) }
{
    let form = blob_type_value(alloc, form)?;
    let metadata = message_of(alloc, "type", form)?;
    let mut message = Message::new(alloc);
    message.put("metadata", metadata)?;
    message.optional_text("uri", uri.as_str())?;
    Ok(message.into_json())
}

/// Bytes, which are left out where there are none.
fn optional_bytes(alloc: Global, bytes: &[u8]) -> Result<Option<Json>, NoMemory>
    ensures { IfOk result (λ o. option_map data_of o ≡ bytes_unless_empty bytes.now) }
{
    if bytes.is_empty() {
        return Ok(None);
    }
    Ok(Some(Json::string(write_bytes(alloc, bytes)?)))
}

fn binary_value(alloc: Global, value: &[u8], tag: &Text) -> Result<Json, NoMemory>
    ensures { IfOk result (λ j. data_of j ≡ message (binary_fields value.now tag.now)) }
{
    let mut message = Message::new(alloc);
    message.add("value", optional_bytes(alloc, value)?)?;
    message.optional_text("tag", tag.as_str())?;
    Ok(message.into_json())
}

fn error_value(alloc: Global, node: &Text, text: &Text) -> Result<Json, NoMemory>
    ensures { IfOk result (λ j. data_of j ≡ message (error_fields node.now text.now)) }
{
    let mut message = Message::new(alloc);
    message.optional_text("failedNodeId", node.as_str())?;
    message.optional_text("message", text.as_str())?;
    Ok(message.into_json())
}

/// The scalar that a literal is. A collection and a map are an empty message.
#[cycle(literal_value)]
#[tactic(auto, using(std::proofs::lemmas::Grind::common_steps, crate::proofs::Layers::scalar_variants, crate::proofs::Layers::primitive_variants))]
pub fn scalar_value(alloc: Global, literal: &Literal) -> Result<Json, NoMemory>
    ensures { IfOk result (λ j. data_of j ≡ scalar_json literal.now) }
{
    match literal {
        Literal::None => message_of(alloc, "noneType", empty(alloc)),
        Literal::Integer(_) => message_of(alloc, "primitive", primitive_value(alloc, literal)?),
        Literal::Text(_) => message_of(alloc, "primitive", primitive_value(alloc, literal)?),
        Literal::Boolean(_) => message_of(alloc, "primitive", primitive_value(alloc, literal)?),
        Literal::Datetime { .. } => {
            message_of(alloc, "primitive", primitive_value(alloc, literal)?)
        }
        Literal::Duration { .. } => {
            message_of(alloc, "primitive", primitive_value(alloc, literal)?)
        }
        Literal::Blob { uri, form } => message_of(alloc, "blob", blob_value(alloc, uri, form)?),
        Literal::Binary { value, tag } => {
            message_of(alloc, "binary", binary_value(alloc, value.as_slice(), tag)?)
        }
        Literal::Error { node, message } => {
            message_of(alloc, "error", error_value(alloc, node, message)?)
        }
        Literal::Generic(tree) => message_of(alloc, "generic", tree_value(alloc, tree)?),
        Literal::Union { value, variant } => {
            let value = literal_value(alloc, value.get())?;
            let variant = type_value(alloc, variant.get())?;
            message_of(alloc, "union", union_value(alloc, value, variant)?)
        }
        Literal::Collection(_) => Ok(empty(alloc)),
        Literal::Map(_) => Ok(empty(alloc)),
    }
}

fn union_value(alloc: Global, value: Json, variant: Json) -> Result<Json, NoMemory>
    ensures { IfOk result (λ j. data_of j ≡ message (union_fields (data_of value) (data_of variant))) }
{
    let mut message = Message::new(alloc);
    message.put("value", value)?;
    message.put("type", variant)?;
    Ok(message.into_json())
}

/// The JSON of a literal.
#[cycle(literal_value)]
#[tactic(auto, using(std::proofs::lemmas::Grind::common_steps, crate::proofs::Layers::literal_variants, crate::proofs::Layers::scalar_variants))]
fn literal_value(alloc: Global, literal: &Literal) -> Result<Json, NoMemory>
    ensures { IfOk result (λ j. data_of j ≡ literal_json literal.now) }
{
    match literal {
        Literal::Collection(elements) => {
            let elements = literals_value(alloc, elements.as_slice())?;
            let collection = message_with(alloc, "literals", elements)?;
            message_of(alloc, "collection", collection)
        }
        Literal::Map(entries) => {
            let entries = entries_value(alloc, entries.as_slice())?;
            let map = message_with(alloc, "literals", entries)?;
            message_of(alloc, "map", map)
        }
        scalar => message_of(alloc, "scalar", scalar_value(alloc, scalar)?),
    }
}

#[cycle(literal_value)]
fn literals_value(alloc: Global, literals: &[Literal]) -> Result<Option<Json>, NoMemory>
    ensures { IfOk result (λ o. option_map data_of o ≡ optional_list (map literal_json literals.now)) }
{
    let mut values = Elements::with_capacity(alloc, literals.len())?;
    for literal in literals {
        values.push(literal_value(alloc, literal)?)?;
    }
    Ok(values.into_optional())
}

#[cycle(literal_value)]
fn entries_value(alloc: Global, entries: &[(Text, Literal)]) -> Result<Option<Json>, NoMemory>
    ensures { IfOk result (λ o. option_map data_of o ≡ optional_map (map literal_entry entries.now)) }
{
    let mut message = Message::new(alloc);
    for (name, literal) in entries {
        message.put(name.as_str(), literal_value(alloc, literal)?)?;
    }
    Ok(message.into_optional())
}
