//! The lines of a report, whatever words it has for how a slot stands.
ghost use Rattle.std.specs.Prelude.{◌≡◌, ◌∷◌, ◌++◌, IfOk, OnOk, Some, string_bytes};
ghost use Rattle.std.specs.Str.{IsUtf8};
ghost use Rattle.std.specs.Option.{option_copied};
ghost use Rattle.serde_json.specs.Data.{string};
ghost use Rattle.serde_json.specs.Written.{compact_text};
ghost use Rattle.fly_docs.specs.AttemptName.{path_text, item_text};
ghost use Rattle.fly_writers.specs.Literals.{literal_text};
ghost use Rattle.fly_report.specs.Lines.{rest_text, attempts_text, code_text, output_text, outputs_text, total_text};

use fly_types::{Literal, NoMemory, Text};
use fly_writers::write_literal;
use serde_json::Value;
use std::alloc::Global;

/// Adds the ids of a path, with a slash between each two.
pub fn push_path(text: &mut String, path: &[Text]) -> Result<(), NoMemory>
    ensures { OnOk result (string_bytes text.new ≡ string_bytes text.old ++ path_text path.now) }
{
    let mut later = false;
    for id in path {
        if later {
            text.push_str("/")?;
        }
        text.push_str(id.as_str())?;
        later = true;
    }
    Ok(())
}

/// Adds the number of an item, as it stands behind the path of its node.
pub fn push_item(alloc: Global, text: &mut String, item: usize) -> Result<(), NoMemory>
    ensures { OnOk result (string_bytes text.new ≡ string_bytes text.old ++ item_text (Some item)) }
{
    let number = format!(in alloc; "#{item}")?;
    text.push_str(number.as_str())?;
    Ok(())
}

/// Ends the line of a slot, whose subject stands there: its word, how many of its attempts were launched where it has
/// any, and its code where it has one.
pub fn push_line(
    alloc: Global,
    text: &mut String,
    word: &str,
    attempts: Option<u64>,
    code: Option<&Text>,
) -> Result<(), NoMemory>
    ensures { OnOk result (string_bytes text.new
        ≡ string_bytes text.old ++ rest_text word.now attempts (option_copied code.entry)) }
{
    text.push_str(" ")?;
    text.push_str(word)?;
    push_attempts(alloc, text, attempts)?;
    push_code(alloc, text, code)?;
    text.push_str("\n")?;
    Ok(())
}

fn push_attempts(alloc: Global, text: &mut String, attempts: Option<u64>) -> Result<(), NoMemory>
    ensures { OnOk result (string_bytes text.new ≡ string_bytes text.old ++ attempts_text attempts) }
{
    let Some(attempts) = attempts else {
        return Ok(());
    };
    let number = format!(in alloc; " attempts {attempts}")?;
    text.push_str(number.as_str())?;
    Ok(())
}

fn push_code(alloc: Global, text: &mut String, code: Option<&Text>) -> Result<(), NoMemory>
    ensures { OnOk result (string_bytes text.new ≡ string_bytes text.old ++ code_text (option_copied code.entry)) }
{
    let Some(code) = code else {
        return Ok(());
    };
    text.push_str(" ")?;
    push_quoted(alloc, text, code)
}

/// Adds a text as a JSON text.
fn push_quoted(alloc: Global, text: &mut String, code: &Text) -> Result<(), NoMemory>
    ensures { OnOk result (string_bytes text.new ≡ string_bytes text.old ++ compact_text (string code.now)) }
{
    let value = Value::String(String::from_str(alloc, code.as_str())?);
    let quoted = value.to_string(alloc)?;
    text.push_str(quoted.as_str())?;
    Ok(())
}

/// Adds a line for each literal that was put out, in their order.
pub fn push_outputs(
    alloc: Global,
    text: &mut String,
    outputs: &[(Text, Literal)],
) -> Result<(), NoMemory>
    ensures { OnOk result (string_bytes text.new ≡ string_bytes text.old ++ outputs_text outputs.now) }
{
    for (name, literal) in outputs {
        push_output(alloc, text, name, literal)?;
    }
    Ok(())
}

fn push_output(
    alloc: Global,
    text: &mut String,
    name: &Text,
    literal: &Literal,
) -> Result<(), NoMemory>
    ensures { OnOk result (string_bytes text.new ≡ string_bytes text.old ++ output_text (name.now, literal.now)) }
{
    text.push_str("output ")?;
    text.push_str(name.as_str())?;
    text.push_str(" ")?;
    push_literal(alloc, text, literal)?;
    text.push_str("\n")?;
    Ok(())
}

fn push_literal(alloc: Global, text: &mut String, literal: &Literal) -> Result<(), NoMemory>
    ensures { OnOk result (string_bytes text.new ≡ string_bytes text.old ++ literal_text literal.now) }
{
    let json = write_literal(alloc, literal)?;
    let Ok(json) = str::from_utf8(&json) else {
        unreachable!();
    };
    text.push_str(json)?;
    Ok(())
}

/// Adds the last line: how many of the executions succeeded.
pub fn push_total(
    alloc: Global,
    text: &mut String,
    succeeded: u32,
    all: u32,
) -> Result<(), NoMemory>
    ensures { OnOk result (string_bytes text.new ≡ string_bytes text.old ++ total_text succeeded all) }
{
    let total = total_line(alloc, succeeded, all)?;
    text.push_str(total.as_str())?;
    Ok(())
}

fn total_line(alloc: Global, succeeded: u32, all: u32) -> Result<String, NoMemory>
    ensures { IfOk result (λ line. string_bytes line ≡ total_text succeeded all) }
{
    Ok(format!(in alloc; "{succeeded} of {all} succeeded\n")?)
}
