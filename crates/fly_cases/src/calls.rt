use crate::case::wants_memory;
use crate::messages::{literal_and_type, literal_map, type_under};
use anyhow::{Context, Result, bail};
use fly_cast::{ConvertFault, FitFault, convert, fit, is_castable};
use fly_docs::{AttemptName, NameFault, print_name, read_name};
use fly_policy::expired;
use fly_types::{Literal, LiteralType, NoMemory, Text, canonical, is_member};
use fly_writers::write_literal;
use serde_json::Value;
use std::alloc::Global;
use std::io::Write;

/// Makes the call that a line names under `call`, and prints the name of the case with its answer:
///
/// - `cast`: the `literal` of the type `from` as one of the type `to`;
/// - `fit`: the `literal` fitted to the type `to`;
/// - `canonical`: the canonical bytes of the literals of `map`, in hexadecimal digits;
/// - `get`: the literal that `map` has under the name `of`;
/// - `name`: the parts of the name of an attempt, `text`, and a copy of it as it is printed;
/// - `expired`: whether a timeout of `timeout` milliseconds from the moment `start` is over at `now`.
///
/// Types, literals and literal maps are messages in JSON.
pub fn make_call<W: Write>(alloc: Global, line: &Value, writer: &mut W) -> Result<()> {
    let name = text_under(line, "case")?;
    let answer = match text_under(line, "call")? {
        "cast" => cast_answer(alloc, line)?,
        "fit" => fit_answer(alloc, line)?,
        "canonical" => canonical_answer(alloc, line)?,
        "get" => get_answer(alloc, line)?,
        "name" => name_answer(alloc, text_under(line, "text")?)?,
        "expired" => expired_answer(alloc, line)?,
        _ => bail!("a call of no name"),
    };
    writeln!(writer, "{name}: {answer}")?;
    Ok(())
}

/// The text that a line has under a key.
pub fn text_under<'a>(line: &'a Value, key: &str) -> Result<&'a str> {
    line.get(key)
        .and_then(Value::as_str)
        .context("a line that lacks a text")
}

/// What a literal becomes.
#[derive(Drop)]
enum Made {
    Literal(Literal),
    /// The literal is of another type than is said.
    NoMember,
    NotCastable,
    DoesNotFit,
    EnumOutside(Text),
    NoMemory,
}

impl Made {
    /// The literal as it is written, or why there is none.
    fn answer(&self, alloc: Global) -> Result<String> {
        let reason = match self {
            Made::Literal(literal) => return literal_text(alloc, literal),
            Made::EnumOutside(text) => return outside(alloc, text.as_str()),
            Made::NoMember => "no member",
            Made::NotCastable => "not castable",
            Made::DoesNotFit => "does not fit",
            Made::NoMemory => return Err(wants_memory(NoMemory)),
        };
        Ok(String::from_str(alloc, reason)?)
    }
}

fn outside(alloc: Global, text: &str) -> Result<String> {
    Ok(format!(in alloc; "EnumOutside {text}")?)
}

/// The literal as it is written.
fn literal_text(alloc: Global, literal: &Literal) -> Result<String> {
    let text = write_literal(alloc, literal).map_err(wants_memory)?;
    String::from_utf8(text).context("a text that is none")
}

fn cast(alloc: Global, literal: Literal, from: &LiteralType, to: &LiteralType) -> Made {
    if !is_member(&literal, from) {
        return Made::NoMember;
    }
    if !is_castable(from, to) {
        return Made::NotCastable;
    }
    match convert(alloc, literal, from, to) {
        Ok(literal) => Made::Literal(literal),
        Err(ConvertFault::EnumOutside { text }) => Made::EnumOutside(text),
        Err(ConvertFault::NoMemory) => Made::NoMemory,
    }
}

fn cast_answer(alloc: Global, line: &Value) -> Result<String> {
    let (literal, from) = literal_and_type(alloc, line.get("literal"), line.get("from"))?;
    let to = type_under(alloc, line.get("to"))?;
    cast(alloc, literal, &from, &to).answer(alloc)
}

fn fitted(alloc: Global, literal: Literal, to: &LiteralType) -> Made {
    match fit(alloc, literal, to) {
        Ok(literal) => Made::Literal(literal),
        Err(FitFault::DoesNotFit) => Made::DoesNotFit,
        Err(FitFault::NoMemory) => Made::NoMemory,
    }
}

fn fit_answer(alloc: Global, line: &Value) -> Result<String> {
    let (literal, to) = literal_and_type(alloc, line.get("literal"), line.get("to"))?;
    fitted(alloc, literal, &to).answer(alloc)
}

fn canonical_answer(alloc: Global, line: &Value) -> Result<String> {
    let literals = literal_map(alloc, line.get("map"))?;
    let bytes = canonical(alloc, &literals).map_err(wants_memory)?;
    let mut digits = String::new(alloc);
    for byte in bytes.iter() {
        let pair = format!(in alloc; "{byte:02x}")?;
        digits.push_str(pair.as_str())?;
    }
    Ok(digits)
}

fn get_answer(alloc: Global, line: &Value) -> Result<String> {
    let literals = literal_map(alloc, line.get("map"))?;
    let name = Text::from_str(alloc, text_under(line, "of")?).map_err(wants_memory)?;
    match literals.get(&name) {
        Some(literal) => literal_text(alloc, literal),
        None => Ok(String::from_str(alloc, "none")?),
    }
}

fn name_answer(alloc: Global, text: &str) -> Result<String> {
    let text = Text::from_str(alloc, text).map_err(wants_memory)?;
    let name = match read_name(alloc, &text) {
        Ok(name) => name,
        Err(NameFault::NotAName) => return Ok(String::from_str(alloc, "NotAName")?),
        Err(NameFault::NoMemory) => return Err(wants_memory(NoMemory)),
    };
    let mut parts = String::from_str(alloc, name.exec.as_str())?;
    for id in name.path.as_slice() {
        parts.push_str(" ")?;
        parts.push_str(id.as_str())?;
    }
    if let Some(item) = name.item {
        parts.push_str(format!(in alloc; " item {item}")?.as_str())?;
    }
    let attempt = name.attempt;
    parts.push_str(format!(in alloc; " attempt {attempt}, ")?.as_str())?;
    parts.push_str(printed_copy(alloc, &name).map_err(wants_memory)?.as_str())?;
    Ok(parts)
}

/// A copy of the name, as it is printed.
fn printed_copy(alloc: Global, name: &AttemptName) -> Result<Text, NoMemory> {
    print_name(alloc, &name.copy(alloc)?)
}

fn expired_answer(alloc: Global, line: &Value) -> Result<String> {
    let start = line
        .get("start")
        .and_then(Value::as_i64)
        .context("a start")?;
    let timeout = line
        .get("timeout")
        .and_then(Value::as_u64)
        .context("a timeout")?;
    let now = line.get("now").and_then(Value::as_i64).context("a moment")?;
    let is_over = expired(start, timeout, now);
    Ok(format!(in alloc; "{is_over}")?)
}
