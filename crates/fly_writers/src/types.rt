ghost use Rattle.std.specs.Prelude.{◌≡◌, map, IfOk, option_map};
ghost use Rattle.fly_writers.specs.Json.{optional_list};
ghost use Rattle.fly_writers.specs.Built.{data_of};
ghost use Rattle.fly_writers.specs.Types.{simple_name as name_of_simple, dimensionality as dimensionality_of, blob_type_json, type_json};

use crate::json::{Elements, Json, Message};
use crate::message::{message_of, message_with, texts_value};
use fly_types::{BlobType, LiteralType, NoMemory, Simple};
use std::alloc::Global;

fn simple_name(simple: Simple) -> &'static str
    ensures { result.now ≡ name_of_simple simple }
{
    match simple {
        Simple::None => "NONE",
        Simple::Integer => "INTEGER",
        Simple::Text => "STRING",
        Simple::Boolean => "BOOLEAN",
        Simple::Datetime => "DATETIME",
        Simple::Duration => "DURATION",
        Simple::Binary => "BINARY",
        Simple::Error => "ERROR",
        Simple::Struct => "STRUCT",
    }
}

fn dimensionality(alloc: Global, multipart: bool) -> Result<Option<Json>, NoMemory>
    ensures { IfOk result (λ o. option_map data_of o ≡ dimensionality_of multipart) }
{
    if multipart {
        Ok(Some(Json::text(alloc, "MULTIPART")?))
    } else {
        Ok(None)
    }
}

pub fn blob_type_value(alloc: Global, form: &BlobType) -> Result<Json, NoMemory>
    ensures { IfOk result (λ j. data_of j ≡ blob_type_json form.now) }
{
    let mut message = Message::new(alloc);
    message.optional_text("format", form.format.as_str())?;
    message.add("dimensionality", dimensionality(alloc, form.multipart)?)?;
    Ok(message.into_json())
}

/// The JSON of a type.
#[cycle(type_value)]
#[tactic(auto, using(std::proofs::lemmas::Grind::common_steps, crate::proofs::Layers::type_variants))]
pub fn type_value(alloc: Global, kind: &LiteralType) -> Result<Json, NoMemory>
    ensures { IfOk result (λ j. data_of j ≡ type_json kind.now) }
{
    match kind {
        LiteralType::Simple(simple) => {
            let name = Json::text(alloc, simple_name(*simple))?;
            message_of(alloc, "simple", name)
        }
        LiteralType::Collection(element) => {
            let element = type_value(alloc, element.get())?;
            message_of(alloc, "collectionType", element)
        }
        LiteralType::Map(value) => {
            let value = type_value(alloc, value.get())?;
            message_of(alloc, "mapValueType", value)
        }
        LiteralType::Blob(form) => {
            let form = blob_type_value(alloc, form)?;
            message_of(alloc, "blob", form)
        }
        LiteralType::Enum(values) => {
            let values = texts_value(alloc, values.as_slice())?;
            let kind = message_with(alloc, "values", values)?;
            message_of(alloc, "enumType", kind)
        }
        LiteralType::Union(variants) => {
            let variants = types_value(alloc, variants.as_slice())?;
            let kind = message_with(alloc, "variants", variants)?;
            message_of(alloc, "unionType", kind)
        }
    }
}

#[cycle(type_value)]
fn types_value(alloc: Global, kinds: &[LiteralType]) -> Result<Option<Json>, NoMemory>
    ensures { IfOk result (λ o. option_map data_of o ≡ optional_list (map type_json kinds.now)) }
{
    let mut values = Elements::with_capacity(alloc, kinds.len())?;
    for kind in kinds {
        values.push(type_value(alloc, kind)?)?;
    }
    Ok(values.into_optional())
}
