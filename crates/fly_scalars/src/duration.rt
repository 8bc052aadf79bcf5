ghost use Rattle.std.specs.Prelude.{◌≡◌, ◌<◌, ◌≤◌, ◌^◌, ◌*◌, ◌++◌, ◌+◌, ◌∷◌, [], nat_abs, IfOk, OnOk, IfSome, Some, string_bytes};
ghost use Rattle.fly_types.specs.Sound.{IsSpan};
ghost use Rattle.jiff_fmt.specs.Text.{places};
ghost use Rattle.fly_scalars.specs.Datetime.{fraction_text};
ghost use Rattle.fly_scalars.specs.Duration.{duration_of, duration_text, unsigned_span, millis_text, forward_span, backward_span, sign_text, IsLength};

use crate::datetime::fraction_digits;
use crate::digits::{after, fraction, number};
use fly_types::NoMemory;
use std::alloc::Global;

/// The longest duration, some 10,000 years, in seconds.
const LONGEST: u64 = 315_576_000_000;

/// A length of time. The nanoseconds are below a second, and have no other sign than the seconds.
#[derive(Clone, Copy, Debug, PartialEq, Eq)]
pub struct Span {
    pub seconds: i64,
    pub nanos: i32,
}

/// The duration that a text is: an optional `-`, digits, an optional point with 1 to 9 digits, and `s`. It is no longer than
/// 315,576,000,000 seconds.
pub fn read_duration(text: &str) -> Option<Span>
    ensures value { result ≡ duration_of text.now }
    ensures range { IfSome result (λ t. IsSpan t.seconds t.nanos) }
{
    let text = text.as_bytes();
    match after(text, b'-') {
        Some(rest) => {
            let (seconds, nanos) = unsigned(rest)?;
            Some(backward(seconds, nanos))
        }
        None => {
            let (seconds, nanos) = unsigned(text)?;
            Some(forward(seconds, nanos))
        }
    }
}

/// So long a duration.
fn forward(seconds: u64, nanos: u32) -> Span
    requires length { IsLength seconds nanos }
    requires below { nanos < 10 ^ 9 }
    ensures value { result ≡ forward_span (seconds, nanos) }
    ensures range { IsSpan result.seconds result.nanos }
{
    Span {
        seconds: seconds as i64,
        nanos: nanos as i32,
    }
}

/// So long a duration with a `-`.
fn backward(seconds: u64, nanos: u32) -> Span
    requires length { IsLength seconds nanos }
    requires below { nanos < 10 ^ 9 }
    ensures value { result ≡ backward_span (seconds, nanos) }
    ensures range { IsSpan result.seconds result.nanos }
{
    Span {
        seconds: -(seconds as i64),
        nanos: -(nanos as i32),
    }
}

/// A duration without a sign, in seconds and nanoseconds.
fn unsigned(text: &[u8]) -> Option<(u64, u32)>
    ensures value { result ≡ unsigned_span text.now }
    ensures length { IfSome result (λ p. IsLength p.0 p.1) }
    ensures below { IfSome result (λ p. p.1 < 10 ^ 9) }
{
    let (seconds, rest) = number(text)?;
    let (nanos, rest) = fraction(rest)?;
    let rest = after(rest, b's')?;
    if !rest.is_empty() {
        return None;
    }
    if seconds < LONGEST || (seconds == LONGEST && nanos == 0) {
        Some((seconds, nanos))
    } else {
        None
    }
}

/// The text of a duration, with the fewest of 0, 3, 6 and 9 digits behind the point that are exact.
pub fn write_duration(alloc: Global, seconds: i64, nanos: i32) -> Result<String, NoMemory>
    requires { nat_abs nanos < 10 ^ 9 }
    ensures text { IfOk result (λ t. string_bytes t ≡ duration_text (record { seconds = seconds; nanos = nanos })) }
    ensures reads_back { IfOk result
        (λ t. IsSpan seconds nanos → duration_of (string_bytes t) ≡ Some (record { seconds = seconds; nanos = nanos })) }
{
    let sign = sign(seconds, nanos);
    let seconds = seconds.unsigned_abs();
    let mut text = format!(in alloc; "{sign}{seconds}")?;
    push_fraction(&mut text, nanos.unsigned_abs())?;
    text.push_str("s")?;
    Ok(text)
}

fn sign(seconds: i64, nanos: i32) -> &'static str
    ensures { result.now ≡ sign_text (record { seconds = seconds; nanos = nanos }) }
{
    if seconds < 0 || nanos < 0 { "-" } else { "" }
}

/// Writes a point with the fewest of 3, 6 and 9 digits that are exact, or nothing.
fn push_fraction(text: &mut String, nanos: u32) -> Result<(), NoMemory>
    requires { nanos < 10 ^ 9 }
    ensures { OnOk result (string_bytes text.new ≡ string_bytes text.old ++ fraction_text nanos) }
{
    let digits = fraction_digits(nanos);
    if digits == 0 {
        return Ok(());
    }
    text.push_str(".")?;
    push_places(text, digits, nanos)
}

/// Writes the first digits of a number of nine.
fn push_places(text: &mut String, digits: u8, number: u32) -> Result<(), NoMemory>
    requires count { digits ≤ 9 }
    requires bound { number < 10 ^ 9 }
    ensures { OnOk result (string_bytes text.new ≡ string_bytes text.old ++ places digits 1_000_000_000 number) }
{
    let mut left = number;
    let mut place = 1_000_000_000;
    for written in 0..digits {
        place /= 10;
        push_digit(text, left / place)?;
        left %= place;
    }
    Ok(())
}

fn push_digit(text: &mut String, digit: u32) -> Result<(), NoMemory>
    requires { digit < 10 }
    ensures { OnOk result (string_bytes text.new ≡ string_bytes text.old ++ (48 + digit) ∷ []) }
{
    text.push((b'0' + digit as u8) as char)?;
    Ok(())
}

/// The text of so many milliseconds.
pub fn write_millis(alloc: Global, millis: u64) -> Result<String, NoMemory>
    ensures text { IfOk result (λ t. string_bytes t ≡ millis_text millis) }
{
    write_duration(
        alloc,
        (millis / 1_000) as i64,
        (millis % 1_000 * 1_000_000) as i32,
    )
}
