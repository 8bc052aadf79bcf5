ghost use Rattle.std.specs.Prelude.{◌≡◌, ℕ, ◌<◌, ◌≤ℤ◌, ◌+ℤ◌, ◌-ℤ◌, ◌*ℤ◌, ◌/◌, ◌%◌, ◌^◌, ◌++◌, ◌∷◌, unsigned_abs, pos, neg_ℤ, IfOk, IfSome, Some, string_bytes};
ghost use Rattle.fly_types.specs.Sound.{IsInstant};
ghost use Rattle.std.specs.Int.{int_div_euclid, int_rem_euclid};
ghost use Rattle.jiff_fmt.specs.Text.{date_text as printed_date, time_text as printed_time};
ghost use Rattle.jiff_core.specs.Calendar.{IsEpochDay};
ghost use Rattle.jiff_core.specs.Date.{epoch_day};
ghost use Rattle.fly_scalars.specs.Digits.{front_view, fraction_digits as digits_of_fraction};
ghost use Rattle.fly_scalars.specs.Datetime.{datetime_of, datetime_text, date_front, minutes_front, time_front, offset_of, instant_at, at_end};

use crate::digits::{after, four_digits, fraction, two_digits};
use arrayvec::ArrayString;
use fly_types::NoMemory;
use jiff_core::civil::{Date, DateTime, Time};
use jiff_fmt::temporal::DateTimePrinter;
use std::alloc::Global;

const SECONDS_PER_DAY: i64 = 86_400;

/// 1970-01-01 by jiff's count of days from -9999-01-01.
const DAYS_BEFORE_EPOCH: i64 = 4_371_587;

/// A moment: seconds since 1970-01-01T00:00:00Z, and nanoseconds after that second, also where it is negative.
#[derive(Clone, Copy, Debug, PartialEq, Eq)]
pub struct Instant {
    pub seconds: i64,
    pub nanos: u32,
}

/// The moment that a text is: `YYYY-MM-DDTHH:MM:SS`, an optional point with 1 to 9 digits, and `Z`, `+HH:MM` or `-HH:MM`.
/// It lies from year 0001 to year 9999 in UTC.
pub fn read_datetime(text: &str) -> Option<Instant>
    ensures value { result ≡ datetime_of text.now }
    ensures range { IfSome result (λ t. IsInstant t.seconds t.nanos) }
{
    let (day, rest) = date_at(text.as_bytes())?;
    let rest = after(rest, b'T')?;
    let (second, rest) = time_at(rest)?;
    let (nanos, rest) = fraction(rest)?;
    let offset = offset(rest)?;
    moment_at(seconds_at(day, second, offset), nanos)
}

/// The seconds since 1970-01-01T00:00:00Z at a second of a day, by a clock that is so far ahead of UTC.
fn seconds_at(day: i32, second: u32, offset: i32) -> i64
    requires day { IsEpochDay day }
    requires second { second < 86_460 }
    requires low { neg_ℤ (pos 86_400) ≤ℤ offset }
    requires high { offset ≤ℤ pos 86_400 }
    ensures { result ≡ (day *ℤ pos 86_400 +ℤ pos second) -ℤ offset }
{
    day as i64 * SECONDS_PER_DAY + second as i64 - offset as i64
}

/// The moment, where it lies from year 0001 to year 9999.
fn moment_at(seconds: i64, nanos: u32) -> Option<Instant>
    ensures { result ≡ instant_at seconds nanos }
{
    if seconds < -62_135_596_800 || seconds > 253_402_300_799 {
        return None;
    }
    Some(Instant { seconds, nanos })
}

/// `YYYY-MM-DD`, as the number of the day from 1970-01-01 on.
fn date_at(text: &[u8]) -> Option<(i32, &[u8])>
    ensures value { front_view result ≡ date_front text.now }
    ensures bound { IfSome result (λ p. IsEpochDay p.0) }
{
    let (year, rest) = four_digits(text)?;
    let rest = after(rest, b'-')?;
    let (month, rest) = two_digits(rest)?;
    let rest = after(rest, b'-')?;
    let (day, rest) = two_digits(rest)?;
    match Date::new(year as i16, month as i8, day as i8) {
        Ok(date) => Some((date.to_unix_epoch_day(), rest)),
        Err(_) => None,
    }
}

/// `HH:MM`, in seconds.
fn minutes_at(text: &[u8]) -> Option<(u32, &[u8])>
    ensures value { front_view result ≡ minutes_front text.now }
    ensures bound { IfSome result (λ p. p.0 < 86_400) }
{
    let (hour, rest) = two_digits(text)?;
    let rest = after(rest, b':')?;
    let (minute, rest) = two_digits(rest)?;
    if hour > 23 || minute > 59 {
        return None;
    }
    Some((hour as u32 * 3600 + minute as u32 * 60, rest))
}

/// `HH:MM:SS`, in seconds.
fn time_at(text: &[u8]) -> Option<(u32, &[u8])>
    ensures value { front_view result ≡ time_front text.now }
    ensures bound { IfSome result (λ p. p.0 < 86_460) }
{
    let (minutes, rest) = minutes_at(text)?;
    let rest = after(rest, b':')?;
    let (second, rest) = two_digits(rest)?;
    if second > 59 {
        return None;
    }
    Some((minutes + second as u32, rest))
}

/// The offset from UTC in seconds, which is all of the text.
fn offset(text: &[u8]) -> Option<i32>
    ensures value { result ≡ offset_of text.now }
    ensures low { IfSome result (λ o. neg_ℤ (pos 86_400) ≤ℤ o) }
    ensures high { IfSome result (λ o. o ≤ℤ pos 86_400) }
{
    match text {
        [b'Z'] => Some(0),
        [b'+', rest @ ..] => Some(minutes_alone(rest)? as i32),
        [b'-', rest @ ..] => Some(-(minutes_alone(rest)? as i32)),
        _ => None,
    }
}

/// `HH:MM` and nothing behind it, in seconds.
fn minutes_alone(text: &[u8]) -> Option<u32>
    ensures value { result ≡ at_end (minutes_front text.now) }
    ensures bound { IfSome result (λ p. p < 86_400) }
{
    let (minutes, rest) = minutes_at(text)?;
    if rest.is_empty() { Some(minutes) } else { None }
}

/// How many digits a fraction of so many nanoseconds is written with.
pub fn fraction_digits(nanos: u32) -> u8
    ensures { result ≡ digits_of_fraction nanos }
{
    if nanos == 0 {
        0
    } else if nanos % 1_000_000 == 0 {
        3
    } else if nanos % 1_000 == 0 {
        6
    } else {
        9
    }
}

/// The date of a moment, in UTC.
fn date_of(seconds: i64) -> Date
    requires low { neg_ℤ (pos 62_135_596_800) ≤ℤ seconds }
    requires high { seconds ≤ℤ pos 253_402_300_799 }
    ensures { epoch_day result ≡ int_div_euclid seconds (pos 86_400) }
{
    let day = seconds.div_euclid(SECONDS_PER_DAY) + DAYS_BEFORE_EPOCH;
    Date::from_days_since_min(day as u32)
}

/// The second of a moment's day, in UTC.
fn second_of_day(seconds: i64) -> u32
    ensures value { result ≡ unsigned_abs (int_rem_euclid seconds (pos 86_400)) }
    ensures bound { result < 86_400 }
{
    seconds.rem_euclid(SECONDS_PER_DAY) as u32
}

/// What a clock shows at a second of the day.
fn time_of(second: u32, nanos: u32) -> Time
    requires second { second < 86_400 }
    requires nanos { nanos < 10 ^ 9 }
    ensures hour { result.hour ≡ second / 3600 }
    ensures minute { result.minute ≡ second / 60 % 60 }
    ensures second { result.second ≡ second % 60 }
    ensures nanos { result.subsec_nanosecond ≡ nanos }
{
    Time {
        hour: (second / 3600) as u8,
        minute: (second / 60 % 60) as u8,
        second: (second % 60) as u8,
        subsec_nanosecond: nanos,
    }
}

/// The text of a date and a time, with so many digits behind the point.
fn printed(date: Date, time: Time, digits: u8) -> ArrayString<32>
    ensures { result.bytes ≡ printed_date date ++ 84 ∷ printed_time (Some digits) time }
{
    let printer = DateTimePrinter::new().precision(Some(digits));
    printer.datetime_text(DateTime { date, time })
}

/// The text of a moment, in UTC, with the fewest of 0, 3, 6 and 9 digits behind the point that are exact.
pub fn write_datetime(alloc: Global, seconds: i64, nanos: u32) -> Result<String, NoMemory>
    requires { IsInstant seconds nanos }
    ensures text { IfOk result (λ t. string_bytes t ≡ datetime_text (record { seconds = seconds; nanos = nanos })) }
    ensures reads_back { IfOk result (λ t. datetime_of (string_bytes t) ≡ Some (record { seconds = seconds; nanos = nanos })) }
{
    let date = date_of(seconds);
    let time = time_of(second_of_day(seconds), nanos);
    let written = printed(date, time, fraction_digits(nanos));
    let mut text = String::from_str(alloc, written.as_str())?;
    text.push_str("Z")?;
    Ok(text)
}
