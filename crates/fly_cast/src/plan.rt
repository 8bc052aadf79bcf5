ghost use Rattle.std.specs.Prelude.{◌≡◌, ◌≢◌, IfOk};
ghost use Rattle.fly_cast.specs.declared.plan.Step.TheVariants as step;
ghost use Rattle.fly_cast.specs.Plan.{IsPlan, steps_around};

use crate::castable::only_taker;
use fly_types::{LiteralType, NoMemory, Text};
use std::alloc::Global;

/// What one level of two types makes of a literal. The steps inside it are for its parts.
#[derive(Clone, Copy)]
pub(crate) enum Step<'t> {
    /// A text has to be one of these values.
    Texts(&'t [Text]),
    /// The elements are tested, and stay where they are.
    TextsOfElements,
    /// The values are tested, and stay where they are.
    TextsOfValues,
    /// Each element is converted.
    Elements,
    /// Each value is converted.
    Values,
    /// The converted literal is wrapped as a scalar of this variant.
    IntoUnion(&'t LiteralType),
    /// The value of a union scalar, of one of these variants, is converted from its own variant to this type.
    FromUnion(&'t [LiteralType], &'t LiteralType),
}

/// The steps by which the literals of type `a` become literals of type `b`, the outermost first. None where all stay.
#[cycle(plan)]
pub(crate) fn steps_between<'t>(
    alloc: Global,
    a: &'t LiteralType,
    b: &'t LiteralType,
) -> Result<Vec<Step<'t>>, NoMemory>
    ensures { IfOk result (λ steps. IsPlan steps.items a.now b.now) }
{
    if a.is_same(b) {
        return Ok(Vec::new(alloc));
    }
    steps_by_form(alloc, a, b)
}

/// By the first rule for two types that differ.
#[cycle(plan)]
fn steps_by_form<'t>(
    alloc: Global,
    a: &'t LiteralType,
    b: &'t LiteralType,
) -> Result<Vec<Step<'t>>, NoMemory>
    requires { a.now ≢ b.now }
    ensures { IfOk result (λ steps. IsPlan steps.items a.now b.now) }
{
    if let LiteralType::Union(variants) = a {
        return Ok(vec![in alloc; Step::FromUnion(variants.as_slice(), b)]?);
    }
    if let LiteralType::Union(variants) = b {
        let Some(variant) = only_taker(a, variants.as_slice()) else {
            return Ok(Vec::new(alloc));
        };
        let mut steps = steps_between(alloc, a, variant)?;
        steps.insert(0, Step::IntoUnion(variant))?;
        return Ok(steps);
    }
    match a {
        LiteralType::Collection(from) => match b {
            LiteralType::Collection(to) => {
                let steps = steps_between(alloc, from.get(), to.get())?;
                steps_around(steps, Step::TextsOfElements, Step::Elements)
            }
            _ => Ok(Vec::new(alloc)),
        },
        LiteralType::Map(from) => match b {
            LiteralType::Map(to) => {
                let steps = steps_between(alloc, from.get(), to.get())?;
                steps_around(steps, Step::TextsOfValues, Step::Values)
            }
            _ => Ok(Vec::new(alloc)),
        },
        // Of the simple types STRING alone casts to an enum.
        LiteralType::Simple(_) => match b {
            LiteralType::Enum(values) => Ok(vec![in alloc; Step::Texts(values.as_slice())]?),
            _ => Ok(Vec::new(alloc)),
        },
        _ => Ok(Vec::new(alloc)),
    }
}

/// The steps for a container, of those for its parts: it is rebuilt only where its parts change.
fn steps_around<'t>(
    mut steps: Vec<Step<'t>>,
    test: Step<'t>,
    rebuild: Step<'t>,
) -> Result<Vec<Step<'t>>, NoMemory>
    ensures { IfOk result (λ all. all.items ≡ steps_around test.entry rebuild.entry steps.entry.items) }
{
    let step = match steps.as_slice() {
        [] => return Ok(steps),
        [
            Step::Texts(_) | Step::TextsOfElements | Step::TextsOfValues,
            ..
        ] => test,
        _ => rebuild,
    };
    steps.insert(0, step)?;
    Ok(steps)
}
