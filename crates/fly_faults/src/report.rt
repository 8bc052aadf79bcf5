//! Places and faults of a report.
ghost use Rattle.std.specs.Prelude.{◌≡◌, ◌++◌, ◌∷◌, [], IfOk, OnOk, codes};
ghost use Rattle.fly_faults.specs.Places.{element_place, variable_place, fault_at, fault_with};

use crate::{Code, Fault};
use fly_types::{NoMemory, Text};
use std::alloc::Global;

/// Three texts in a row.
pub fn concatenated(alloc: Global, first: &str, second: &str, third: &str) -> Result<Text, NoMemory>
    ensures { IfOk result (λ t. t ≡ first.now ++ second.now ++ third.now) }
{
    let mut text = String::from_str(alloc, first)?;
    text.push_str(second)?;
    text.push_str(third)?;
    Ok(Text::from_string(text))
}

/// The place of a variable, behind the place of its node.
pub fn variable_place(alloc: Global, place: &Text, name: &Text) -> Result<Text, NoMemory>
    ensures { IfOk result (λ t. t ≡ variable_place place.now name.now) }
{
    concatenated(alloc, place.as_str(), ".", name.as_str())
}

/// The place of an element of a list of the bundle.
pub fn element_place(alloc: Global, list: &str, index: usize) -> Result<Text, NoMemory>
    ensures { IfOk result (λ t. t ≡ element_place list.now index) }
{
    Ok(Text::from_string(format!(in alloc; "{list}[{index}]")?))
}

/// Adds a fault of which there is no more to say.
pub fn report_at(
    alloc: Global,
    faults: &mut Vec<Fault>,
    code: Code,
    place: &Text,
) -> Result<(), NoMemory>
    ensures { OnOk result (faults.new.items ≡ faults.old.items ++ fault_at code place.now ∷ []) }
{
    let detail = Text::from_str(alloc, "")?;
    report_with(alloc, faults, code, place, detail)
}

/// Adds a fault with what more there is to say.
pub fn report_with(
    alloc: Global,
    faults: &mut Vec<Fault>,
    code: Code,
    place: &Text,
    detail: Text,
) -> Result<(), NoMemory>
    ensures { OnOk result (faults.new.items ≡ faults.old.items ++ fault_with code place.now detail ∷ []) }
{
    let place = place.copy(alloc)?;
    faults.push(Fault {
        code,
        place,
        detail,
    })?;
    Ok(())
}
