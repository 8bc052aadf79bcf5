ghost use Rattle.std.specs.Prelude.{◌≡◌, ◌++◌, ◌∷◌, map, reverse, IfOk, OnOk, Some, option_map, string_bytes};
ghost use Rattle.fly_schema.specs.Places as spec;
ghost use Rattle.fly_schema.specs.Found.{found_of, step_of};

use crate::DocKind;
use fly_types::{NoMemory, Text};
use std::alloc::Global;

/// A step from a value to one inside it.
#[derive(Clone, Copy)]
pub(crate) enum Step {
    Field(&'static str),
    Index(usize),
}

/// A fault, and the steps to it from what was looked at, the last one first.
#[derive(Drop)]
pub(crate) struct Found {
    pub(crate) kind: DocKind,
    pub(crate) steps: Vec<Step>,
}

impl Found {
    /// A fault of what was looked at itself.
    pub(crate) fn new(alloc: Global, kind: DocKind) -> Found
        ensures { Some (found_of result) ≡ spec.fault_here kind }
    {
        Found {
            kind,
            steps: Vec::new(alloc),
        }
    }

    /// The same fault, seen from a step further out.
    pub(crate) fn inside(mut self, step: Step) -> Result<Found, NoMemory>
        ensures { IfOk result
            (λ f. Some (found_of f) ≡ spec.inside (step_of step) (Some (found_of self))) }
    {
        self.steps.push(step)?;
        Ok(self)
    }
}

/// The text of the place to which the steps lead from the whole document, the last one first.
pub(crate) fn place_text(alloc: Global, mut steps: Vec<Step>) -> Result<Text, NoMemory>
    ensures { IfOk result (λ t. t ≡ spec.place_text (reverse (map step_of steps.items))) }
{
    if steps.is_empty() {
        return Text::from_str(alloc, "/");
    }
    let mut text = String::new(alloc);
    while let Some(step) = steps.pop() {
        add_step(&mut text, step)?;
    }
    Ok(Text::from_string(text))
}

fn add_step(text: &mut String, step: Step) -> Result<(), NoMemory>
    ensures { OnOk result
        (string_bytes text.new ≡ string_bytes text.old ++ 47 ∷ spec.step_text (step_of step)) }
{
    text.push('/')?;
    match step {
        Step::Field(name) => text.push_str(name)?,
        Step::Index(number) => write!(text, "{number}")?,
    }
    Ok(())
}

/// What was found a step further in, seen from here.
pub(crate) fn inside(step: Step, found: Option<Found>) -> Result<Option<Found>, NoMemory>
    ensures { IfOk result
        (λ o. option_map found_of o ≡ spec.inside (step_of step) (option_map found_of found)) }
{
    match found {
        Some(found) => Ok(Some(found.inside(step)?)),
        None => Ok(None),
    }
}
