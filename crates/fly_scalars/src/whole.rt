ghost use Rattle.std.specs.Prelude.{◌≡◌, IfOk, Some, string_bytes};
ghost use Rattle.fly_scalars.specs.Whole.{i64_of, u32_of, integer_text, narrow as narrow_of};

use fly_types::NoMemory;
use std::alloc::Global;

/// The number that a text of an optional `-` and digits is, where it fits 64 bits.
pub fn read_i64(text: &str) -> Option<i64>
    ensures { result ≡ i64_of text.now }
{
    if text.starts_with('+') {
        return None;
    }
    text.parse::<i64>().ok()
}

/// The number that a text of an optional `-` and digits is, where it is none below 0 and fits 32 bits. `-0` is 0.
pub fn read_u32(text: &str) -> Option<u32>
    ensures { result ≡ u32_of text.now }
{
    let value = read_i64(text)?;
    narrow(value)
}

/// The number, where it is none below 0 and fits 32 bits.
fn narrow(value: i64) -> Option<u32>
    ensures { result ≡ narrow_of value }
{
    if value < 0 || value > u32::MAX as i64 {
        return None;
    }
    Some(value as u32)
}

/// The text of a number.
pub fn write_i64(alloc: Global, value: i64) -> Result<String, NoMemory>
    ensures text { IfOk result (λ t. string_bytes t ≡ integer_text value) }
    ensures reads_back { IfOk result (λ t. i64_of (string_bytes t) ≡ Some value) }
{
    Ok(format!(in alloc; "{value}")?)
}
