ghost use Rattle.std.specs.Prelude.{◌≡◌, map, IfOk, MatchOption};
ghost use Rattle.fly_templates.specs.Words.{word_of};
ghost use Rattle.fly_templates.specs.Finding.{IsFirstInput};

use crate::inputs::Inputs;
use crate::plain::push_plain;
use crate::templates::input_at;
use fly_types::{List, Literal, LiteralMap, NoMemory, Text};
use std::alloc::Global;

/// Words of a command as a child gets them: each `{{.inputs.NAME}}` whose name is an input gives way to its value.
pub fn child_words(
    alloc: Global,
    words: &List<Text>,
    inputs: &LiteralMap,
) -> Result<List<Text>, NoMemory>
    ensures { IfOk result (λ replaced. replaced ≡ map (word_of inputs.now) words.now) }
{
    let inputs = Inputs::new(inputs);
    let mut replaced = Vec::with_capacity(alloc, words.len())?;
    for word in words.as_slice() {
        replaced.push(child_word(alloc, word.as_str(), &inputs)?)?;
    }
    Ok(List::from_vec(replaced))
}

fn child_word(alloc: Global, word: &str, inputs: &Inputs<'_>) -> Result<Text, NoMemory>
    ensures { IfOk result (λ replaced. replaced ≡ word_of inputs.now word.now) }
{
    let mut text = String::with_capacity(alloc, word.len())?;
    let mut rest = word;
    while let Some(found) = first_input(rest, inputs) {
        text.push_str(&rest[..found.start])?;
        push_plain(alloc, &mut text, found.value)?;
        rest = &rest[found.end..];
    }
    text.push_str(rest)?;
    Ok(Text::from_string(text))
}

/// A template of an input in a text: where it begins and ends, and the value of the input.
#[derive(Clone, Copy)]
struct Found<'a> {
    start: usize,
    end: usize,
    value: &'a Literal,
}

/// The first template of an input in the text.
fn first_input<'a>(text: &str, inputs: &Inputs<'a>) -> Option<Found<'a>>
    ensures { MatchOption result (word_of inputs.now text.now ≡ text.now)
        (λ found. IsFirstInput inputs.now text.now found.start found.end found.value.now) }
{
    for start in 0..text.len() {
        if let Some((value, rest)) = input_at(&text.as_bytes()[start..], inputs) {
            let end = text.len() - rest.len();
            return Some(Found { start, end, value });
        }
    }
    None
}
