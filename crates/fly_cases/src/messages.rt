ghost use Rattle.std.specs.Prelude.{IfOk};
ghost use Rattle.fly_types.specs.Sound.{IsSoundMap};

use anyhow::{Context, Error, Result, anyhow, bail};
use fly_idl::{DocFault, read_literal_map};
use fly_types::{Literal, LiteralMap, LiteralType};
use serde_json::Value;
use std::alloc::Global;

/// The literals of a `LiteralMap` in JSON.
pub fn literal_map(alloc: Global, map: Option<&Value>) -> Result<LiteralMap>
    ensures { IfOk result IsSoundMap }
{
    let text = map.context("a line without a map")?.to_string(alloc)?;
    match literals_in(alloc, text.as_bytes()) {
        Ok(literals) => Ok(literals),
        Err(fault) => Err(unread(fault)),
    }
}

fn literals_in(alloc: Global, bytes: &[u8]) -> Result<LiteralMap, DocFault>
    ensures { IfOk result IsSoundMap }
{
    read_literal_map(alloc, bytes)
}

/// The fault of a message that a line has, as an error of this program.
fn unread(fault: DocFault) -> Error {
    let kind = fault.kind;
    let place = fault.place.as_str();
    anyhow!("a message with the fault {kind:?} {place}")
}

/// A `Literal` and a `LiteralType` in JSON.
pub fn literal_and_type(
    alloc: Global,
    literal: Option<&Value>,
    kind: Option<&Value>,
) -> Result<(Literal, LiteralType)> {
    let literal = literal
        .context("a line without a literal")?
        .to_string(alloc)?;
    union_parts(alloc, literal.as_str(), kind)
}

/// A `Literal` in JSON.
pub fn literal_under(alloc: Global, literal: Option<&Value>) -> Result<Literal> {
    let literal = literal
        .context("a line without a literal")?
        .to_string(alloc)?;
    let text = format!(in alloc; r#"{{"literals":{{"l":{literal}}}}}"#)?;
    let literals = literals_in(alloc, text.as_bytes()).map_err(unread)?;
    match literals.entries.into_vec().pop() {
        Some((_, literal)) => Ok(literal),
        None => bail!("no literal"),
    }
}

/// A `LiteralType` in JSON.
pub fn type_under(alloc: Global, kind: Option<&Value>) -> Result<LiteralType> {
    let (_, kind) = union_parts(alloc, r#"{"scalar":{"noneType":{}}}"#, kind)?;
    Ok(kind)
}

/// The literal and the type, read as the two parts of a union scalar.
fn union_parts(
    alloc: Global,
    literal: &str,
    kind: Option<&Value>,
) -> Result<(Literal, LiteralType)> {
    let kind = kind.context("a line without a type")?.to_string(alloc)?;
    let text = union_text(alloc, literal, kind.as_str())?;
    let literals = literals_in(alloc, text.as_bytes()).map_err(unread)?;
    let mut entries = literals.entries.into_vec();
    match entries.pop() {
        Some((_, literal)) => parts_of(literal).context("no union"),
        None => bail!("no literal"),
    }
}

/// The value and the variant of a union scalar.
fn parts_of(literal: Literal) -> Option<(Literal, LiteralType)> {
    match literal {
        Literal::Union { value, variant } => Some((value.into_inner(), variant.into_inner())),
        _ => None,
    }
}

fn union_text(alloc: Global, literal: &str, kind: &str) -> Result<String> {
    Ok(format!(in alloc;
        r#"{{"literals":{{"l":{{"scalar":{{"union":{{"type":{kind},"value":{literal}}}}}}}}}}}"#
    )?)
}
