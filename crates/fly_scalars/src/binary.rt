ghost use Rattle.std.specs.Prelude.{◌≡◌, IfOk, Some, string_bytes};
ghost use Rattle.base64.specs.GeneralPurpose.{IsBytes, decoded_of};
ghost use Rattle.fly_scalars.specs.Binary.{bytes_of, bytes_text, or_next};

use base64::DecodeAllocError;
use base64::engine::GeneralPurpose;
use base64::engine::general_purpose::{STANDARD, STANDARD_NO_PAD, URL_SAFE, URL_SAFE_NO_PAD};
use fly_types::{Bytes, NoMemory};
use std::alloc::Global;

/// The bytes that a text is: base64 in the standard or the URL alphabet, with its padding or without it, and with zero bits behind
/// the last byte.
pub fn read_bytes(alloc: Global, text: &str) -> Result<Option<Bytes>, NoMemory>
    ensures { IfOk result (λ o. o ≡ bytes_of text.now) }
{
    let text = text.as_bytes();
    let found = decoded(alloc, &STANDARD, text)?;
    let found = or_decoded(alloc, found, &STANDARD_NO_PAD, text)?;
    let found = or_decoded(alloc, found, &URL_SAFE, text)?;
    or_decoded(alloc, found, &URL_SAFE_NO_PAD, text)
}

/// What was found, or else what this engine finds.
fn or_decoded(
    alloc: Global,
    found: Option<Bytes>,
    engine: &GeneralPurpose,
    text: &[u8],
) -> Result<Option<Bytes>, NoMemory>
    ensures { IfOk result (λ o. o ≡ or_next found (decoded_of engine.now text.now)) }
{
    match found {
        Some(bytes) => Ok(Some(bytes)),
        None => decoded(alloc, engine, text),
    }
}

fn decoded(alloc: Global, engine: &GeneralPurpose, text: &[u8]) -> Result<Option<Bytes>, NoMemory>
    ensures { IfOk result (λ o. o ≡ decoded_of engine.now text.now) }
{
    match engine.decode(alloc, text) {
        Ok(bytes) => Ok(Some(Bytes::from_vec(bytes))),
        Err(DecodeAllocError::DecodeError(_)) => Ok(None),
        Err(DecodeAllocError::OutOfMemory) => Err(NoMemory),
    }
}

/// The text of bytes, in the standard alphabet with padding.
pub fn write_bytes(alloc: Global, bytes: &[u8]) -> Result<String, NoMemory>
    ensures text { IfOk result (λ t. string_bytes t ≡ bytes_text bytes.now) }
    ensures reads_back { IfOk result (λ t. bytes_of (string_bytes t) ≡ Some bytes.now) }
{
    Ok(STANDARD.encode(alloc, bytes)?)
}
