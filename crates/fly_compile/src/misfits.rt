//! What is wrong with a value that does not fit what its input wants.
ghost use Rattle.std.specs.Prelude.{◌≡◌, ◌++◌, ◌∷◌, [], Some, map, codes, IfOk, OnOk};
ghost use Rattle.std.specs.Option.{option_copied};
ghost use Rattle.fly_types.specs.declared.kinds.LiteralType.{out-LiteralType};
ghost use Rattle.fly_docs.specs.declared.binding.Bound.{out-Bound};
ghost use Rattle.fly_types.specs.declared.literals.Literal.{out-Literal};
ghost use Rattle.fly_docs.specs.Conditions as conditions;
ghost use Rattle.fly_faults.specs.BindingFaults as faults;
ghost use Rattle.fly_faults.specs.Places as places;
ghost use Rattle.fly_compile.specs.Scopes.{source_there};
ghost use Rattle.fly_compile.specs.Sites.{wanted_value, site_of, is_promise_of_anything_there};
ghost use Rattle.fly_faults.specs.TypeText.{quoted};

use crate::fits::{does_array_input_fit, does_bound_fit};
use crate::site::{Site, Wanted};
use crate::sources::Sources;
use crate::{Code, Fault};
use fly_docs::{Binding, Bound};
use fly_faults::{concatenated, if_primitive, quoted};
use fly_types::{Literal, LiteralType, NoMemory, Simple, Text, simple_type};
use std::alloc::Global;

/// The primitive type of what is bound, where that is known.
pub(crate) fn bound_primitive(sources: &Sources<'_, '_>, x: &Bound) -> Option<Simple>
    ensures { result ≡ conditions.bound_primitive_in (source_there sources.now) (out-Bound x.now) }
{
    match x {
        Bound::Promise { node, var } => sources.find(node, var).primitive(),
        Bound::Scalar(literal) => match simple_type(literal) {
            Some(simple) => if_primitive(simple),
            None => None,
        },
        _ => None,
    }
}

fn is_promise_of_anything(sources: &Sources<'_, '_>, x: &Bound) -> bool
    ensures { result ≡ is_promise_of_anything_there (source_there sources.now) (out-Bound x.now) }
{
    match x {
        Bound::Promise { node, var } => sources.find(node, var).is_anything(),
        _ => false,
    }
}

/// Whether what is bound is what is wanted.
pub(crate) fn fits_wanted(
    alloc: Global,
    site: &Site<'_, '_, '_>,
    x: &Bound,
    wanted: Wanted<'_>,
) -> Result<bool, NoMemory>
    ensures { IfOk result (λ fits. fits ≡ faults.fits_wanted (site_of site.now) x.now (wanted_value wanted.entry)) }
{
    match wanted {
        Wanted::Value(kind) => Ok(does_bound_fit(site.sources, x, kind)),
        Wanted::Items(kind) => does_array_input_fit(alloc, site.sources, x, kind),
        Wanted::Primitive => {
            let fits = bound_primitive(site.sources, x).is_some();
            Ok(fits || is_promise_of_anything(site.sources, x))
        }
    }
}

/// The text that is bound where an enum is wanted.
fn text_for_enum<'a>(x: &'a Bound, kind: &LiteralType) -> Option<&'a Text>
    ensures { option_copied result ≡ faults.text_for_enum (out-Bound x.now) (out-LiteralType kind.now) }
{
    match x {
        Bound::Scalar(literal) => match kind {
            LiteralType::Enum(_) => text_in(literal),
            _ => None,
        },
        _ => None,
    }
}

fn text_in(literal: &Literal) -> Option<&Text>
    ensures { option_copied result ≡ faults.text_in (out-Literal literal.now) }
{
    match literal {
        Literal::Text(text) => Some(text),
        _ => None,
    }
}

fn illegal_text<'a>(x: &'a Bound, wanted: Wanted<'_>) -> Option<&'a Text>
    ensures { option_copied result ≡ faults.illegal_text x.now (wanted_value wanted.entry) }
{
    match wanted {
        Wanted::Value(kind) | Wanted::Items(kind) => text_for_enum(x, kind),
        Wanted::Primitive => None,
    }
}

/// The type of a promise, else the word `value`.
fn bound_text(alloc: Global, site: &Site<'_, '_, '_>, x: &Bound) -> Result<Text, NoMemory>
    ensures { IfOk result (λ t. t ≡ faults.bound_text (site_of site.now) (out-Bound x.now)) }
{
    match x {
        Bound::Promise { node, var } => site.sources.find(node, var).text(alloc),
        _ => Text::from_str(alloc, "value"),
    }
}

/// The fault of a value that does not fit.
pub(crate) fn misfit(
    alloc: Global,
    site: &Site<'_, '_, '_>,
    x: &Binding,
    wanted: Wanted<'_>,
    place: &Text,
) -> Result<Fault, NoMemory>
    requires { place.now ≡ places.variable_place site.now.place x.now.var }
    ensures { IfOk result (λ f. f ≡ faults.misfit (site_of site.now) x.now (wanted_value wanted.entry)) }
{
    let place = place.copy(alloc)?;
    match illegal_text(&x.bound, wanted) {
        Some(text) => illegal_value(alloc, place, text),
        None => mismatch(alloc, site, x, wanted, place),
    }
}

fn illegal_value(alloc: Global, place: Text, text: &Text) -> Result<Fault, NoMemory>
    ensures { IfOk result (λ f. f ≡ places.fault_with Code.IllegalEnumValue place (quoted text.now)) }
{
    let detail = quoted(alloc, text)?;
    Ok(Fault {
        code: Code::IllegalEnumValue,
        place,
        detail,
    })
}

fn mismatch(
    alloc: Global,
    site: &Site<'_, '_, '_>,
    x: &Binding,
    wanted: Wanted<'_>,
    place: Text,
) -> Result<Fault, NoMemory>
    ensures { IfOk result (λ f. f ≡ places.fault_with Code.MismatchedTypes place
        (faults.bound_text (site_of site.now) (out-Bound x.now.bound) ++ codes " to " ++ faults.wanted_text (wanted_value wanted.entry))) }
{
    let own = bound_text(alloc, site, &x.bound)?;
    let its = wanted.text(alloc)?;
    let detail = concatenated(alloc, own.as_str(), " to ", its.as_str())?;
    Ok(Fault {
        code: Code::MismatchedTypes,
        place,
        detail,
    })
}
