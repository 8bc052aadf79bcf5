ghost use Rattle.std.specs.Prelude.{◌≡◌, Ok, IfOk, IsTrue};
ghost use Rattle.std.specs.List.{All};
ghost use Rattle.fly_types.specs.declared.literals.Literal.{out-Literal};
ghost use Rattle.fly_types.specs.Sound.{IsSound};
ghost use Rattle.fly_types.specs.Membership.{IsMember, IsCollectionOf, IsMapOf};
ghost use Rattle.fly_cast.specs.Target.{IsTarget};
ghost use Rattle.fly_cast.specs.Castable.{is_castable};
ghost use Rattle.fly_cast.specs.Conversion.{IsAnswer, conversion_of_elements, conversion_of_entries, conversion_of_text, entry_result, each_result, conversion_of};
ghost use Rattle.fly_cast.specs.Plan.{IsCheck, IsForeign, Suits, conversion_by};

use crate::castable::is_value;
use crate::plan::{Step, steps_between};
use fly_types::{Boxed, List, Literal, LiteralType, NoMemory, Text};
use std::alloc::{AllocError, AllocFailed, Global};

/// Why a literal was not converted.
#[derive(Debug, Drop, PartialEq, Eq)]
pub enum ConvertFault {
    /// A text that no value of its target enum is: the first one in element order.
    EnumOutside { text: Text },
    NoMemory,
}

/// The literal of type `a` as one of type `b`. It is moved, and no part that stays is copied.
pub fn convert(
    alloc: Global,
    literal: Literal,
    a: &LiteralType,
    b: &LiteralType,
) -> Result<Literal, ConvertFault>
    requires member { IsMember a.now literal }
    requires castable { IsTrue (is_castable a.now b.now) }
    ensures value { IsAnswer (conversion_of literal a.now b.now) result }
    ensures target { IfOk result (IsMember b.now) }
    ensures sound { IsSound literal → IsTarget b.now → IfOk result IsSound }
{
    convert_by_steps(alloc, literal, a, b)
}

#[cycle(convert)]
fn convert_by_steps(
    alloc: Global,
    literal: Literal,
    a: &LiteralType,
    b: &LiteralType,
) -> Result<Literal, ConvertFault>
    requires { IsMember a.now literal }
    ensures { IsAnswer (conversion_of literal a.now b.now) result }
{
    let steps = steps_between(alloc, a, b)?;
    take_steps(alloc, literal, steps.as_slice())
}

/// The value of a union scalar has steps of its own, since they depend on its variant.
#[cycle(convert)]
fn take_steps(alloc: Global, literal: Literal, steps: &[Step]) -> Result<Literal, ConvertFault>
    requires { Suits steps.now literal }
    ensures { IsAnswer (conversion_by steps.now literal) result }
{
    let [step, inner @ ..] = steps else {
        return Ok(literal);
    };
    match step {
        Step::Texts(_) | Step::TextsOfElements | Step::TextsOfValues => {
            test_texts(alloc, literal, steps)
        }
        Step::Elements => convert_collection(alloc, literal, inner),
        Step::Values => convert_map(alloc, literal, inner),
        Step::IntoUnion(variant) => {
            let value = Boxed::new(alloc, take_steps(alloc, literal, inner)?)?;
            let variant = Boxed::new(alloc, variant.copy(alloc)?)?;
            Ok(Literal::Union { value, variant })
        }
        Step::FromUnion(_, to) => match literal {
            Literal::Union { value, variant } => {
                convert_by_steps(alloc, value.into_inner(), variant.get(), to)
            }
            other => Ok(other),
        },
    }
}

#[cycle(convert)]
fn convert_collection(
    alloc: Global,
    literal: Literal,
    steps: &[Step],
) -> Result<Literal, ConvertFault>
    requires { IsCollectionOf (Suits steps.now) (out-Literal literal) }
    ensures { IsAnswer (conversion_of_elements (conversion_by steps.now) literal (out-Literal literal)) result }
{
    match literal {
        Literal::Collection(elements) => {
            let converted = convert_elements(alloc, elements.into_vec(), steps)?;
            Ok(Literal::Collection(converted))
        }
        other => Ok(other),
    }
}

#[cycle(convert)]
fn convert_elements(
    alloc: Global,
    elements: Vec<Literal>,
    steps: &[Step],
) -> Result<List<Literal>, ConvertFault>
    requires { All (Suits steps.now) elements.items }
    ensures { IsAnswer (each_result (conversion_by steps.now) elements.items) result }
{
    let mut converted = Vec::with_capacity(alloc, elements.len())?;
    for element in elements {
        converted.push(take_steps(alloc, element, steps)?)?;
    }
    Ok(List::from_vec(converted))
}

#[cycle(convert)]
fn convert_map(alloc: Global, literal: Literal, steps: &[Step]) -> Result<Literal, ConvertFault>
    requires { IsMapOf (Suits steps.now) (out-Literal literal) }
    ensures { IsAnswer (conversion_of_entries (conversion_by steps.now) literal (out-Literal literal)) result }
{
    match literal {
        Literal::Map(entries) => {
            let converted = convert_entries(alloc, entries.into_vec(), steps)?;
            Ok(Literal::Map(converted))
        }
        other => Ok(other),
    }
}

#[cycle(convert)]
fn convert_entries(
    alloc: Global,
    entries: Vec<(Text, Literal)>,
    steps: &[Step],
) -> Result<List<(Text, Literal)>, ConvertFault>
    requires { All (λ entry. Suits steps.now entry.1) entries.items }
    ensures { IsAnswer (each_result (entry_result (conversion_by steps.now)) entries.items) result }
{
    let mut converted = Vec::with_capacity(alloc, entries.len())?;
    for (name, value) in entries {
        let value = take_steps(alloc, value, steps)?;
        converted.push((name, value))?;
    }
    Ok(List::from_vec(converted))
}

/// The literal as it is, where none of its texts is foreign.
fn test_texts(alloc: Global, literal: Literal, steps: &[Step]) -> Result<Literal, ConvertFault>
    requires { IsCheck steps.now }
    ensures { IsAnswer (conversion_by steps.now literal) result }
{
    if let Some(text) = foreign_text(&literal, steps) {
        let text = text.copy(alloc)?;
        return Err(ConvertFault::EnumOutside { text });
    }
    Ok(literal)
}

/// The first text, in element order, that is no value of its enum.
#[cycle(foreign)]
fn foreign_text<'l>(literal: &'l Literal, steps: &[Step]) -> Option<&'l Text>
    requires { IsCheck steps.now }
    ensures { IsForeign (conversion_by steps.now literal.now) literal.now result }
{
    let [step, inner @ ..] = steps else {
        return None;
    };
    match step {
        Step::Texts(values) => text_outside(literal, values),
        Step::TextsOfElements => match literal {
            Literal::Collection(elements) => foreign_in_elements(elements.as_slice(), inner),
            _ => None,
        },
        Step::TextsOfValues => match literal {
            Literal::Map(entries) => foreign_in_values(entries.as_slice(), inner),
            _ => None,
        },
        _ => None,
    }
}

#[cycle(foreign)]
fn foreign_in_elements<'l>(elements: &'l [Literal], steps: &[Step]) -> Option<&'l Text>
    requires { IsCheck steps.now }
    ensures { IsForeign (each_result (conversion_by steps.now) elements.now) elements.now result }
{
    for element in elements {
        if let Some(text) = foreign_text(element, steps) {
            return Some(text);
        }
    }
    None
}

#[cycle(foreign)]
fn foreign_in_values<'l>(entries: &'l [(Text, Literal)], steps: &[Step]) -> Option<&'l Text>
    requires { IsCheck steps.now }
    ensures { IsForeign (each_result (entry_result (conversion_by steps.now)) entries.now) entries.now result }
{
    for (_, value) in entries {
        if let Some(text) = foreign_text(value, steps) {
            return Some(text);
        }
    }
    None
}

fn text_outside<'l>(literal: &'l Literal, values: &[Text]) -> Option<&'l Text>
    ensures { IsForeign (conversion_of_text values.now literal.now (out-Literal literal.now)) literal.now result }
{
    match literal {
        Literal::Text(text) => {
            if is_value(values, text) {
                None
            } else {
                Some(text)
            }
        }
        _ => None,
    }
}

impl From<NoMemory> for ConvertFault {
    ghost use Rattle.std.specs.Prelude.{◌≡◌};
    ghost use Rattle.fly_cast.specs.declared.conversion.ConvertFault.TheVariants as fault;

    ghost from_gives = { λ _ e. e ≡ fault.NoMemory };

    fn from(_: NoMemory) -> ConvertFault {
        ConvertFault::NoMemory
    }
}

impl From<AllocError> for ConvertFault {
    ghost use Rattle.std.specs.Prelude.{◌≡◌};
    ghost use Rattle.fly_cast.specs.declared.conversion.ConvertFault.TheVariants as fault;

    ghost from_gives = { λ _ e. e ≡ fault.NoMemory };

    fn from(_: AllocError) -> ConvertFault {
        ConvertFault::NoMemory
    }
}

impl<T: Drop> From<AllocFailed<T>> for ConvertFault {
    ghost use Rattle.std.specs.Prelude.{◌≡◌};
    ghost use Rattle.fly_cast.specs.declared.conversion.ConvertFault.TheVariants as fault;

    ghost from_gives = { λ _ e. e ≡ fault.NoMemory };

    fn from(_: AllocFailed<T>) -> ConvertFault {
        ConvertFault::NoMemory
    }
}
