//! Which bindings fit a type.
ghost use Rattle.std.specs.Prelude.{◌≡◌, filter, is_some};
ghost use Rattle.std.specs.List.{list_all};
ghost use Rattle.std.specs.Option.{option_copied};
ghost use Rattle.fly_cast.specs.Castable.{sole_element};
ghost use Rattle.fly_docs.specs.Fitting.{bound_fits};
ghost use Rattle.fly_state.specs.Origins.{source_in_run};

use crate::Plan;
use fly_cast::does_fit;
use fly_docs::Bound;
use fly_types::{LiteralType, Text};

/// Whether what is bound may go where a value of the type is wanted. Takes no memory, and time in the sizes of what is
/// bound, of the types that are promised and of the type, times the type's levels.
#[cycle(bound_fits)]
pub(crate) fn does_bound_fit(plan: &Plan, x: &Bound, kind: &LiteralType) -> bool
    ensures { result ≡ bound_fits (source_in_run plan.now) x.now kind.now }
{
    match x {
        Bound::Promise { node, var } => plan.source(node, var).fits(kind),
        Bound::Scalar(literal) => does_fit(literal, kind),
        Bound::Collection(elements) => match kind {
            LiteralType::Collection(element) => {
                do_bounds_fit(plan, elements.as_slice(), element.get())
            }
            LiteralType::Union(variants) => only_fitting(plan, x, variants.as_slice()).is_some(),
            _ => false,
        },
        Bound::Map(entries) => match kind {
            LiteralType::Map(value) => do_entries_fit(plan, entries.as_slice(), value.get()),
            LiteralType::Union(variants) => only_fitting(plan, x, variants.as_slice()).is_some(),
            _ => false,
        },
    }
}

#[cycle(bound_fits)]
fn do_bounds_fit(plan: &Plan, elements: &[Bound], kind: &LiteralType) -> bool
    ensures { result ≡ list_all (λ e. bound_fits (source_in_run plan.now) e kind.now) elements.now }
{
    for element in elements {
        if !does_bound_fit(plan, element, kind) {
            return false;
        }
    }
    true
}

#[cycle(bound_fits)]
fn do_entries_fit(plan: &Plan, entries: &[(Text, Bound)], kind: &LiteralType) -> bool
    ensures { result ≡ list_all (λ e. bound_fits (source_in_run plan.now) e.1 kind.now) entries.now }
{
    for (_, value) in entries {
        if !does_bound_fit(plan, value, kind) {
            return false;
        }
    }
    true
}

/// The one type that what is bound fits. None where there are two, or none.
#[cycle(bound_fits)]
pub(crate) fn only_fitting<'b>(
    plan: &Plan,
    x: &Bound,
    variants: &'b [LiteralType],
) -> Option<&'b LiteralType>
    ensures { option_copied result ≡ sole_element (filter (bound_fits (source_in_run plan.now) x.now) variants.now) }
{
    let mut fitting = None;
    for variant in variants {
        if does_bound_fit(plan, x, variant) {
            if fitting.is_some() {
                return None;
            }
            fitting = Some(variant);
        }
    }
    fitting
}
