//! The texts of JSON values.
ghost use Rattle.std.specs.Prelude.{◌≡◌, IfOk, string_bytes};
ghost use Rattle.serde_json.specs.Data.{string, number, unsigned};
ghost use Rattle.serde_json.specs.Find.{of_integer};
ghost use Rattle.serde_json.specs.Written.{compact_text};
ghost use Rattle.fly_docs.specs.AttemptName.{path_text as text_of_path};

use fly_types::{NoMemory, Text};
use serde_json::{Number, Value};
use std::alloc::Global;

/// A text in quotes.
pub fn string_value(alloc: Global, text: &str) -> Result<Vec<u8>, NoMemory>
    ensures { IfOk result (λ value. value.items ≡ compact_text (string text.now)) }
{
    let value = Value::String(String::from_str(alloc, text)?);
    Ok(value.to_vec(alloc)?)
}

/// A number that counts.
pub fn count_value(alloc: Global, count: u64) -> Result<Vec<u8>, NoMemory>
    ensures { IfOk result (λ value. value.items ≡ compact_text (number (unsigned count))) }
{
    let value = Value::Number(Number::from(count));
    Ok(value.to_vec(alloc)?)
}

/// A moment, in milliseconds.
pub fn moment_value(alloc: Global, moment: i64) -> Result<Vec<u8>, NoMemory>
    ensures { IfOk result (λ value. value.items ≡ compact_text (number (of_integer moment))) }
{
    let value = Value::Number(Number::from(moment));
    Ok(value.to_vec(alloc)?)
}

/// The ids of a path, with a slash between each two.
pub fn path_text(alloc: Global, path: &[Text]) -> Result<String, NoMemory>
    ensures { IfOk result (λ text. string_bytes text ≡ text_of_path path.now) }
{
    let mut text = String::new(alloc);
    let mut later = false;
    for id in path {
        if later {
            text.push_str("/")?;
        }
        text.push_str(id.as_str())?;
        later = true;
    }
    Ok(text)
}
