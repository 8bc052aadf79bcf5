//! Which bindings fit a type.
ghost use Rattle.std.specs.Prelude.{◌≡◌, ◌||◌, filter, is_some, IfOk};
ghost use Rattle.std.specs.List.{list_all};
ghost use Rattle.std.specs.Option.{option_copied};
ghost use Rattle.fly_cast.specs.Castable.{sole_element};
ghost use Rattle.fly_docs.specs.Fitting as fitting;
ghost use Rattle.fly_docs.specs.Fitting.{bound_fits};
ghost use Rattle.fly_compile.specs.Scopes.{source_there};

use crate::sources::Sources;
use fly_cast::does_fit;
use fly_docs::Bound;
use fly_types::{Boxed, LiteralType, NoMemory, Text};
use std::alloc::Global;

/// Whether what is bound may go where a value of the type is wanted. Takes no memory, and time in the sizes of what is
/// bound, of the types that are promised and of the type, times the type's levels.
#[cycle(bound_fits)]
pub(crate) fn does_bound_fit(sources: &Sources<'_, '_>, x: &Bound, kind: &LiteralType) -> bool
    ensures { result ≡ bound_fits (source_there sources.now) x.now kind.now }
{
    match x {
        Bound::Promise { node, var } => sources.find(node, var).fits(kind),
        Bound::Scalar(literal) => does_fit(literal, kind),
        Bound::Collection(elements) => match kind {
            LiteralType::Collection(element) => {
                do_bounds_fit(sources, elements.as_slice(), element.get())
            }
            LiteralType::Union(variants) => only_fitting(sources, x, variants.as_slice()).is_some(),
            _ => false,
        },
        Bound::Map(entries) => match kind {
            LiteralType::Map(value) => do_entries_fit(sources, entries.as_slice(), value.get()),
            LiteralType::Union(variants) => only_fitting(sources, x, variants.as_slice()).is_some(),
            _ => false,
        },
    }
}

#[cycle(bound_fits)]
fn do_bounds_fit(sources: &Sources<'_, '_>, elements: &[Bound], kind: &LiteralType) -> bool
    ensures { result ≡ list_all (λ e. bound_fits (source_there sources.now) e kind.now) elements.now }
{
    for element in elements {
        if !does_bound_fit(sources, element, kind) {
            return false;
        }
    }
    true
}

#[cycle(bound_fits)]
fn do_entries_fit(sources: &Sources<'_, '_>, entries: &[(Text, Bound)], kind: &LiteralType) -> bool
    ensures { result ≡ list_all (λ e. bound_fits (source_there sources.now) e.1 kind.now) entries.now }
{
    for (_, value) in entries {
        if !does_bound_fit(sources, value, kind) {
            return false;
        }
    }
    true
}

/// The one type that what is bound fits. None where there are two, or none.
#[cycle(bound_fits)]
fn only_fitting<'b>(
    sources: &Sources<'_, '_>,
    x: &Bound,
    variants: &'b [LiteralType],
) -> Option<&'b LiteralType>
    ensures { option_copied result ≡ sole_element (filter (bound_fits (source_there sources.now) x.now) variants.now) }
{
    let mut fitting = None;
    for variant in variants {
        if does_bound_fit(sources, x, variant) {
            if fitting.is_some() {
                return None;
            }
            fitting = Some(variant);
        }
    }
    fitting
}

/// Whether what is bound to the input of an array is a list, with one element for each item.
pub(crate) fn is_mapped(
    alloc: Global,
    sources: &Sources<'_, '_>,
    x: &Bound,
    kind: &LiteralType,
) -> Result<bool, NoMemory>
    ensures { IfOk result (λ r. r ≡ fitting.is_mapped (source_there sources.now) x.now kind.now) }
{
    let element = Boxed::new(alloc, kind.copy(alloc)?)?;
    Ok(does_bound_fit(sources, x, &LiteralType::Collection(element)))
}

/// Whether what is bound to the input of an array is a list, or else one value for all items.
pub(crate) fn does_array_input_fit(
    alloc: Global,
    sources: &Sources<'_, '_>,
    x: &Bound,
    kind: &LiteralType,
) -> Result<bool, NoMemory>
    ensures { IfOk result (λ r. r ≡ fitting.array_input_fits (source_there sources.now) x.now kind.now) }
{
    if is_mapped(alloc, sources, x, kind)? {
        return Ok(true);
    }
    Ok(does_bound_fit(sources, x, kind))
}
