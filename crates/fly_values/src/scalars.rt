ghost use Rattle.std.specs.Prelude.{◌≡◌, ◌≤◌, ◌^◌, ◌<◌, nat_abs, pos, IfOk, unwrap_or};
ghost use Rattle.serde_json.specs.View.{view, number_view};
ghost use Rattle.fly_types.specs.Sound.{IsInstant, IsSpan, IsExactWhole};
ghost use Rattle.fly_values.specs.Scalars.{integer_value, whole_value, exact_value, bytes_value, datetime_value, duration_value, milliseconds_of, timeout_value};

use fly_scalars::{Instant, Span, read_bytes, read_datetime, read_duration, read_i64, read_u32};
use fly_types::{Bytes, NoMemory};
use serde_json::{Number, Value};
use std::alloc::Global;

const NANOS_PER_MILLISECOND: u64 = 1_000_000;

pub fn integer_from(value: &Value) -> i64
    ensures { result ≡ integer_value (view value.now) }
{
    match value {
        Value::Number(number) => number.as_i64().unwrap_or(0),
        Value::String(text) => read_i64(text.as_str()).unwrap_or(0),
        _ => 0,
    }
}

/// A number that is at most `most`; any other value is 0.
pub fn whole_from(most: u32, value: &Value) -> u32
    ensures value { result ≡ whole_value most (view value.now) }
    ensures bound { result ≤ most }
{
    match value {
        Value::Number(number) => match number.as_u64() {
            Some(number) if number <= most as u64 => number as u32,
            _ => 0,
        },
        Value::String(text) => match read_u32(text.as_str()) {
            Some(number) if number <= most => number,
            _ => 0,
        },
        _ => 0,
    }
}

/// A whole number of at most 2^53 - 1 either way; any other is 0.
pub fn exact_from(number: &Number) -> i64
    ensures value { result ≡ exact_value (number_view number.now) }
    ensures exact { IsExactWhole result }
{
    let number = number.as_i64().unwrap_or(0);
    if number.unsigned_abs() < 1 << 53 {
        number
    } else {
        0
    }
}

pub fn bytes_from(alloc: Global, value: &Value) -> Result<Bytes, NoMemory>
    ensures { IfOk result (λ b. b ≡ bytes_value (view value.now)) }
{
    if let Value::String(text) = value {
        if let Some(bytes) = read_bytes(alloc, text.as_str())? {
            return Ok(bytes);
        }
    }
    Ok(Bytes::from_vec(Vec::new(alloc)))
}

pub fn datetime_from(value: &Value) -> Instant
    ensures value { result ≡ datetime_value (view value.now) }
    ensures range { IsInstant result.seconds result.nanos }
{
    if let Value::String(text) = value {
        if let Some(moment) = read_datetime(text.as_str()) {
            return moment;
        }
    }
    Instant {
        seconds: 0,
        nanos: 0,
    }
}

pub fn duration_from(value: &Value) -> Span
    ensures value { result ≡ duration_value (view value.now) }
    ensures range { IsSpan result.seconds result.nanos }
{
    if let Value::String(text) = value {
        if let Some(span) = read_duration(text.as_str()) {
            return span;
        }
    }
    Span {
        seconds: 0,
        nanos: 0,
    }
}

/// A timeout in milliseconds.
pub fn timeout_from(value: &Value) -> u64
    ensures { result ≡ timeout_value (view value.now) }
{
    milliseconds(duration_from(value))
}

/// A duration in milliseconds, rounded up. A negative one is none.
fn milliseconds(span: Span) -> u64
    requires { IsSpan span.seconds span.nanos }
    ensures { result ≡ milliseconds_of span }
{
    if span.seconds < 0 || span.nanos < 0 {
        return 0;
    }
    let nanos = span.nanos.unsigned_abs() as u64;
    span.seconds.unsigned_abs() * 1_000 + (nanos + 999_999) / NANOS_PER_MILLISECOND
}
