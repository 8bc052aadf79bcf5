//! Readers of the front of a text. Each gives what it read and what follows.
ghost use Rattle.std.specs.Prelude.{ℕ, ◌≡◌, ◌<◌, ◌≤◌, ◌^◌, ◌++◌, length, slice_index, IfSome, OnOk, IfOk, string_bytes};
ghost use Rattle.std.specs.Char.{IsAsciiDigit, is_ascii_digit};
ghost use Rattle.std.specs.List.{prefix_len};
ghost use Rattle.jiff_fmt.specs.Reader.{two_digits as two_digits_of, four_digits as four_digits_of};
ghost use Rattle.jiff_fmt.specs.Text.{places};
ghost use Rattle.fly_scalars.specs.Digits as spec;

use fly_types::NoMemory;

/// Two digits, as a number.
pub fn two_digits(text: &[u8]) -> Option<(u8, &[u8])>
    ensures value { spec.front_view result ≡ two_digits_of text.now }
    ensures bound { IfSome result (λ p. p.0 < 100) }
{
    match text {
        [tens @ b'0'..=b'9', ones @ b'0'..=b'9', rest @ ..] => {
            Some(((*tens - b'0') * 10 + (*ones - b'0'), rest))
        }
        _ => None,
    }
}

/// Four digits, as a number.
pub fn four_digits(text: &[u8]) -> Option<(u16, &[u8])>
    ensures value { spec.front_view result ≡ four_digits_of text.now }
    ensures bound { IfSome result (λ p. p.0 < 10_000) }
{
    let (century, rest) = two_digits(text)?;
    let (year, rest) = two_digits(rest)?;
    Some((century as u16 * 100 + year as u16, rest))
}

/// What follows this byte.
pub fn after(text: &[u8], byte: u8) -> Option<&[u8]>
    ensures { spec.rest_view result ≡ spec.after byte text.now }
{
    match text {
        [first, rest @ ..] if *first == byte => Some(rest),
        _ => None,
    }
}

fn digits_len(text: &[u8]) -> usize
    ensures len { result ≡ prefix_len is_ascii_digit text.now }
    ensures within { result ≤ length text.now }
    ensures digits { (k : ℕ) → k < result → IsAsciiDigit (slice_index text.now k) }
{
    text.iter().take_while(|b| b.is_ascii_digit()).count()
}

/// All the digits, one at least, as a number of 64 bits.
pub fn number(text: &[u8]) -> Option<(u64, &[u8])>
    ensures { spec.front_view result ≡ spec.short_number text.now }
{
    let (digits, rest) = text.split_at(digits_len(text));
    let Ok(digits) = str::from_utf8(digits) else {
        return None;
    };
    match digits.parse::<u64>() {
        Ok(value) => Some((value, rest)),
        Err(_) => None,
    }
}

/// All the digits, 1 to 9 of them, as the first digits of a number of nine.
fn billionths(text: &[u8]) -> Option<(u32, &[u8])>
    ensures value { spec.front_view result ≡ spec.billionths text.now }
    ensures bound { IfSome result (λ p. p.0 < 10 ^ 9) }
{
    let (value, rest) = number(text)?;
    let count = text.len() - rest.len();
    if count > 9 {
        return None;
    }
    Some((value as u32 * 10u32.pow(9 - count as u32), rest))
}

/// The nanoseconds of a fraction of a second, which is a point with 1 to 9 digits, or nothing.
pub fn fraction(text: &[u8]) -> Option<(u32, &[u8])>
    ensures value { spec.front_view result ≡ spec.fraction text.now }
    ensures bound { IfSome result (λ p. p.0 < 10 ^ 9) }
{
    match text {
        [b'.', rest @ ..] => billionths(rest),
        _ => Some((0, text)),
    }
}
