//! The templates of inputs in the words of a command.
ghost use Rattle.std.specs.Prelude.{◌≡◌, ◌≤◌, ◌==◌, length};
ghost use Rattle.std.specs.Option.{option_copied};
ghost use Rattle.std.specs.List.{prefix_len};
ghost use Rattle.fly_docs.specs.Names.{is_id_byte};
ghost use Rattle.fly_docs.specs.Templates as spec;

/// What stands behind these bytes, where the text begins with them.
fn behind<'a>(start: &[u8], text: &'a [u8]) -> Option<&'a [u8]>
    ensures { option_copied result ≡ spec.behind start.now text.now }
{
    if text.starts_with(start) {
        Some(&text[start.len()..])
    } else {
        None
    }
}

/// How many spaces the text begins with.
fn space_count(text: &[u8]) -> usize
    ensures count { result ≡ prefix_len (λ byte. byte == 32) text.now }
    ensures within { result ≤ length text.now }
{
    for (at, byte) in text.iter().enumerate() {
        if *byte != b' ' {
            return at;
        }
    }
    text.len()
}

/// The text without the spaces at its front.
fn without_spaces(text: &[u8]) -> &[u8]
    ensures { result.now ≡ spec.without_spaces text.now }
{
    &text[space_count(text)..]
}

/// A letter, a digit, `-` or `_`.
fn is_id_byte(byte: u8) -> bool
    ensures { result ≡ is_id_byte byte }
{
    byte.is_ascii_alphanumeric() || byte == b'-' || byte == b'_'
}

/// How many bytes of an id the text begins with.
fn id_len(text: &[u8]) -> usize
    ensures count { result ≡ prefix_len is_id_byte text.now }
    ensures within { result ≤ length text.now }
{
    for (at, byte) in text.iter().enumerate() {
        if !is_id_byte(*byte) {
            return at;
        }
    }
    text.len()
}

/// The name at the front of the text, where it is an id and closing braces follow.
fn closed_name(text: &[u8]) -> Option<&[u8]>
    ensures { option_copied result ≡ spec.closed_name text.now }
{
    let count = id_len(text);
    if count == 0 {
        return None;
    }
    if count > 63 {
        return None;
    }
    let rest = without_spaces(&text[count..]);
    if rest.starts_with(b"}}") {
        Some(&text[..count])
    } else {
        None
    }
}

/// The name in the template with which the text begins. It reads no further than the template, or than what could be
/// the beginning of one.
pub fn template_name(text: &[u8]) -> Option<&[u8]>
    ensures { option_copied result ≡ spec.template_name text.now }
{
    let Some(opened) = behind(b"{{", text) else {
        return None;
    };
    match behind(b".inputs.", without_spaces(opened)) {
        Some(rest) => closed_name(rest),
        None => None,
    }
}
