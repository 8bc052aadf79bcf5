ghost use Rattle.std.specs.Prelude.{◌≡◌, ◌==◌, map, is_some, IfOk};
ghost use Rattle.std.specs.List.{list_all, list_any};
ghost use Rattle.std.specs.Str.{bytes_eq};
ghost use Rattle.serde_json.specs.Data.{string};
ghost use Rattle.serde_json.specs.View.{view};
ghost use Rattle.fly_schema.specs.Scalars as spec;
ghost use Rattle.fly_schema.specs.Table as forms;
ghost use Rattle.fly_schema.specs.Views.{texts_of, value_of, scalar_of};

use crate::table::{EnumValue, Scalar, TextForm};
use fly_scalars::{read_bytes, read_datetime, read_duration, read_i64, read_u32};
use fly_types::NoMemory;
use serde_json::Value;
use std::alloc::Global;

/// Whether the text may stand.
pub(crate) fn fits_texts(form: &TextForm, text: &str) -> bool
    ensures { result ≡ spec.fits_texts (texts_of form.now) text.now }
{
    match form {
        TextForm::Any => true,
        TextForm::Bytes {
            least,
            most,
            ranges,
        } => {
            if text.len() < *least || *most < text.len() {
                return false;
            }
            are_within(ranges, text.as_bytes())
        }
    }
}

fn are_within(ranges: &[(u8, u8)], bytes: &[u8]) -> bool
    ensures { result ≡ list_all (spec.is_within ranges.now) bytes.now }
{
    bytes.iter().all(|b| is_within(ranges, *b))
}

fn is_within(ranges: &[(u8, u8)], byte: u8) -> bool
    ensures { result ≡ spec.is_within ranges.now byte }
{
    ranges.iter().any(|r| r.0 <= byte && byte <= r.1)
}

/// Whether one of the enum's values is meant.
fn is_among(values: &[EnumValue], value: &Value) -> bool
    ensures { result ≡ is_some (spec.enum_in (map value_of values.now) (view value.now)) }
{
    match value {
        Value::String(text) => has_name(values, text.as_str()),
        Value::Number(number) => match number.as_u64() {
            Some(number) => has_number(values, number),
            None => false,
        },
        _ => false,
    }
}

fn has_name(values: &[EnumValue], name: &str) -> bool
    ensures { result ≡ list_any (λ v. bytes_eq name.now v.name.now) values.now }
{
    values.iter().any(|v| name == v.name)
}

fn has_number(values: &[EnumValue], number: u64) -> bool
    ensures { result ≡ list_any (λ v. number == v.number) values.now }
{
    values.iter().any(|v| number == v.number)
}

fn is_fraction(value: &Value) -> bool
    ensures { result ≡ spec.is_fraction (view value.now) }
{
    value.is_f64()
}

/// Whether the value is refused as a float.
pub(crate) fn is_refused_float(scalar: &Scalar, value: &Value) -> bool
    ensures { result ≡ spec.is_refused_float (scalar_of scalar.now) (view value.now) }
{
    match scalar {
        Scalar::Float => true,
        Scalar::Integer | Scalar::Whole(_) => is_fraction(value),
        Scalar::Enum { refused, .. } => is_fraction(value) || is_among(refused, value),
        _ => false,
    }
}

/// Whether the value has the form, and is in the range.
pub(crate) fn has_form(alloc: Global, scalar: &Scalar, value: &Value) -> Result<bool, NoMemory>
    ensures { IfOk result (λ b. b ≡ spec.has_form (scalar_of scalar.now) (view value.now)) }
{
    match scalar {
        Scalar::Bool => Ok(value.is_boolean()),
        Scalar::Text(form) => Ok(is_text(form, value)),
        Scalar::Integer => Ok(is_integer(value)),
        Scalar::Whole(most) => Ok(is_whole(*most, value)),
        Scalar::Enum { values, .. } => Ok(is_among(values, value)),
        Scalar::Bytes => is_bytes(alloc, value),
        Scalar::Datetime => Ok(is_datetime(value)),
        Scalar::Duration => Ok(is_duration(value)),
        Scalar::Timeout => Ok(is_timeout(value)),
        Scalar::Float => Ok(false),
    }
}

fn is_text(form: &TextForm, value: &Value) -> bool
    ensures { result ≡ spec.has_form (forms.text_form (texts_of form.now)) (view value.now) }
{
    match value.as_str() {
        Some(text) => fits_texts(form, text),
        None => false,
    }
}

fn is_integer(value: &Value) -> bool
    ensures { result ≡ spec.has_form forms.integer_form (view value.now) }
{
    match value {
        Value::Number(number) => number.is_i64(),
        Value::String(text) => read_i64(text.as_str()).is_some(),
        _ => false,
    }
}

fn is_whole(most: u32, value: &Value) -> bool
    ensures { result ≡ spec.has_form (forms.whole_form most) (view value.now) }
{
    let whole = match value {
        Value::Number(number) => number.as_u64(),
        Value::String(text) => read_u32(text.as_str()).map(u64::from),
        _ => None,
    };
    match whole {
        Some(whole) => whole <= u64::from(most),
        None => false,
    }
}

fn is_bytes(alloc: Global, value: &Value) -> Result<bool, NoMemory>
    ensures { IfOk result (λ b. b ≡ spec.has_form forms.bytes_form (view value.now)) }
{
    match value.as_str() {
        Some(text) => Ok(read_bytes(alloc, text)?.is_some()),
        None => Ok(false),
    }
}

fn is_datetime(value: &Value) -> bool
    ensures { result ≡ spec.has_form forms.datetime_form (view value.now) }
{
    match value.as_str() {
        Some(text) => read_datetime(text).is_some(),
        None => false,
    }
}

fn is_duration(value: &Value) -> bool
    ensures { result ≡ spec.has_form forms.duration_form (view value.now) }
{
    match value.as_str() {
        Some(text) => read_duration(text).is_some(),
        None => false,
    }
}

fn is_timeout(value: &Value) -> bool
    ensures { result ≡ spec.has_form forms.timeout_form (view value.now) }
{
    match value.as_str() {
        Some(text) => is_timeout_text(text),
        None => false,
    }
}

fn is_timeout_text(text: &str) -> bool
    ensures { result ≡ spec.has_form forms.timeout_form (string text.now) }
{
    match read_duration(text) {
        Some(span) => span.seconds >= 0 && span.nanos >= 0,
        None => false,
    }
}
