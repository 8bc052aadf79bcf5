//! The texts of types, as the lines of a report have them.
ghost use Rattle.std.specs.Prelude.{◌≡◌, ◌++◌, ◌∷◌, IfOk, OnOk, string_bytes, codes};
ghost use Rattle.fly_faults.specs.TypeText as texts;
ghost use Rattle.fly_faults.specs.TypeText.{quoted, blob_text, separator, listed};

use fly_types::{BlobType, LiteralType, NoMemory, Simple, Text};
use serde_json::Value;
use std::alloc::Global;

/// The text of a type, as a line of the report has it.
pub fn text_of_type(alloc: Global, kind: &LiteralType) -> Result<Text, NoMemory>
    ensures { IfOk result (λ t. t ≡ texts.text_of_type kind.now) }
{
    let mut out = String::new(alloc);
    push_type(alloc, &mut out, kind)?;
    Ok(Text::from_string(out))
}

/// A text as a JSON text.
pub fn quoted(alloc: Global, text: &Text) -> Result<Text, NoMemory>
    ensures { IfOk result (λ t. t ≡ quoted text.now) }
{
    let value = Value::String(String::from_str(alloc, text.as_str())?);
    Ok(Text::from_string(value.to_string(alloc)?))
}

#[cycle(push_type)]
#[tactic(auto, using(std::proofs::lemmas::Grind::common_steps, crate::proofs::TypeTexts::type_variants))]
pub(crate) fn push_type(alloc: Global, out: &mut String, kind: &LiteralType) -> Result<(), NoMemory>
    ensures { OnOk result (string_bytes out.new ≡ string_bytes out.old ++ texts.text_of_type kind.now) }
{
    match kind {
        LiteralType::Simple(simple) => push(out, simple_text(*simple)),
        LiteralType::Collection(element) => {
            push(out, "[")?;
            push_type(alloc, out, element.get())?;
            push(out, "]")
        }
        LiteralType::Map(value) => {
            push(out, "{")?;
            push_type(alloc, out, value.get())?;
            push(out, "}")
        }
        LiteralType::Blob(form) => push_blob(alloc, out, form),
        LiteralType::Enum(values) => {
            push(out, "enum(")?;
            push_values(alloc, out, values.as_slice())?;
            push(out, ")")
        }
        LiteralType::Union(variants) => {
            push(out, "union(")?;
            push_variants(alloc, out, variants.as_slice())?;
            push(out, ")")
        }
    }
}

pub(crate) fn push(out: &mut String, text: &str) -> Result<(), NoMemory>
    ensures { OnOk result (string_bytes out.new ≡ string_bytes out.old ++ text.now) }
{
    out.push_str(text)?;
    Ok(())
}

fn simple_text(simple: Simple) -> &'static str
    ensures { result.now ≡ texts.simple_text simple }
{
    match simple {
        Simple::None => "NONE",
        Simple::Integer => "INTEGER",
        Simple::Text => "STRING",
        Simple::Boolean => "BOOLEAN",
        Simple::Datetime => "DATETIME",
        Simple::Duration => "DURATION",
        Simple::Binary => "BINARY",
        Simple::Error => "ERROR",
        Simple::Struct => "STRUCT",
    }
}

fn push_quoted(alloc: Global, out: &mut String, text: &Text) -> Result<(), NoMemory>
    ensures { OnOk result (string_bytes out.new ≡ string_bytes out.old ++ quoted text.now) }
{
    let text = quoted(alloc, text)?;
    push(out, text.as_str())
}

fn push_blob(alloc: Global, out: &mut String, form: &BlobType) -> Result<(), NoMemory>
    ensures { OnOk result (string_bytes out.new ≡ string_bytes out.old ++ blob_text form.now) }
{
    push(out, "blob(")?;
    push_quoted(alloc, out, &form.format)?;
    push(out, ",")?;
    push(
        out,
        if form.multipart {
            "MULTIPART"
        } else {
            "SINGLE"
        },
    )?;
    push(out, ")")
}

/// What stands before the part at a place of a list.
fn push_separator(out: &mut String, place: usize) -> Result<(), NoMemory>
    ensures { OnOk result (string_bytes out.new ≡ string_bytes out.old ++ separator place) }
{
    if place == 0 {
        return Ok(());
    }
    push(out, ",")
}

/// The values of an enum, with commas between them.
fn push_values(alloc: Global, out: &mut String, values: &[Text]) -> Result<(), NoMemory>
    ensures { OnOk result (string_bytes out.new ≡ string_bytes out.old ++ listed quoted values.now) }
{
    for (place, value) in values.iter().enumerate() {
        push_separator(out, place)?;
        push_quoted(alloc, out, value)?;
    }
    Ok(())
}

/// The variants of a union, with commas between them.
#[cycle(push_type)]
fn push_variants(alloc: Global, out: &mut String, variants: &[LiteralType]) -> Result<(), NoMemory>
    ensures { OnOk result (string_bytes out.new ≡ string_bytes out.old ++ listed texts.text_of_type variants.now) }
{
    for (place, variant) in variants.iter().enumerate() {
        push_separator(out, place)?;
        push_type(alloc, out, variant)?;
    }
    Ok(())
}

/// Texts with commas between them.
pub fn joined(alloc: Global, texts: &[&Text]) -> Result<Text, NoMemory>
    ensures { IfOk result (λ t. t ≡ listed (λ text. text.now) texts.now) }
{
    let mut out = String::new(alloc);
    for (place, text) in texts.iter().enumerate() {
        push_separator(&mut out, place)?;
        push(&mut out, text.as_str())?;
    }
    Ok(Text::from_string(out))
}
