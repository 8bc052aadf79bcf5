ghost use Rattle.std.specs.Prelude.{◌≡◌, ◌++◌, IsTrue, IfOk, OnOk, option_map, string_bytes, unwrap_or};
ghost use Rattle.fly_types.specs.Sound.{IsInstant};
ghost use Rattle.fly_writers.specs.Literals.{literal_text, is_written_instant as is_instant};
ghost use Rattle.fly_templates.specs.Plain as spec;
ghost use Rattle.fly_templates.specs.Plain.{plain_text};

use fly_scalars::{write_datetime, write_duration, write_i64};
use fly_types::{Literal, NoMemory};
use fly_writers::write_literal;
use std::alloc::Global;

/// Adds a literal to a text, as its plain text, or else as its JSON.
#[tactic(auto, using(std::proofs::lemmas::Grind::common_steps, crate::proofs::PlainLemmas::plain_variants))]
pub(crate) fn push_plain(
    alloc: Global,
    text: &mut String,
    literal: &Literal,
) -> Result<(), NoMemory>
    ensures { OnOk result (string_bytes text.new ≡ string_bytes text.old ++ plain_text literal.now) }
{
    match literal {
        Literal::Integer(value) => push(text, write_i64(alloc, *value)?.as_str()),
        Literal::Text(value) => push(text, value.as_str()),
        Literal::Boolean(value) => push(text, truth_text(*value)),
        Literal::Datetime { seconds, nanos } => {
            let plain = plain_datetime(alloc, *seconds, *nanos)?;
            push_or_json(alloc, text, plain, literal)
        }
        Literal::Duration { seconds, nanos } => {
            let plain = plain_duration(alloc, *seconds, *nanos)?;
            push_or_json(alloc, text, plain, literal)
        }
        _ => push_json(alloc, text, literal),
    }
}

fn push(text: &mut String, more: &str) -> Result<(), NoMemory>
    ensures { OnOk result (string_bytes text.new ≡ string_bytes text.old ++ more.now) }
{
    text.push_str(more)?;
    Ok(())
}

fn truth_text(value: bool) -> &'static str
    ensures { result.now ≡ spec.truth_text value }
{
    if value { "true" } else { "false" }
}

/// Whether a date-time lies from year 1 to year 9999.
fn is_written_instant(seconds: i64, nanos: u32) -> bool
    ensures value { result ≡ is_instant seconds nanos }
    ensures range { IsTrue result → IsInstant seconds nanos }
{
    if seconds < -62_135_596_800 {
        return false;
    }
    if seconds > 253_402_300_799 {
        return false;
    }
    nanos < 1_000_000_000
}

/// The text of a date-time, where it has one.
fn plain_datetime(alloc: Global, seconds: i64, nanos: u32) -> Result<Option<String>, NoMemory>
    ensures { IfOk result (λ plain. option_map string_bytes plain ≡ spec.plain_datetime seconds nanos) }
{
    if !is_written_instant(seconds, nanos) {
        return Ok(None);
    }
    Ok(Some(write_datetime(alloc, seconds, nanos)?))
}

/// The text of a duration, where it has one.
fn plain_duration(alloc: Global, seconds: i64, nanos: i32) -> Result<Option<String>, NoMemory>
    ensures { IfOk result (λ plain. option_map string_bytes plain ≡ spec.plain_duration seconds nanos) }
{
    if nanos.unsigned_abs() >= 1_000_000_000 {
        return Ok(None);
    }
    Ok(Some(write_duration(alloc, seconds, nanos)?))
}

/// Adds the plain text that a literal has, or else its JSON.
fn push_or_json(
    alloc: Global,
    text: &mut String,
    plain: Option<String>,
    literal: &Literal,
) -> Result<(), NoMemory>
    ensures { OnOk result (string_bytes text.new
        ≡ string_bytes text.old ++ unwrap_or (option_map string_bytes plain) (literal_text literal.now)) }
{
    match plain {
        Some(plain) => push(text, plain.as_str()),
        None => push_json(alloc, text, literal),
    }
}

fn push_json(alloc: Global, text: &mut String, literal: &Literal) -> Result<(), NoMemory>
    ensures { OnOk result (string_bytes text.new ≡ string_bytes text.old ++ literal_text literal.now) }
{
    let json = write_literal(alloc, literal)?;
    match str::from_utf8(json.as_slice()) {
        Ok(json) => push(text, json),
        Err(_) => unreachable!(),
    }
}
