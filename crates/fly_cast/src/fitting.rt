ghost use Rattle.std.specs.Prelude.{◌≡◌, filter, is_some, IfOk};
ghost use Rattle.std.specs.List.{list_all};
ghost use Rattle.std.specs.Option.{option_copied};
ghost use Rattle.fly_types.specs.declared.kinds.LiteralType.{out-LiteralType};
ghost use Rattle.fly_types.specs.declared.literals.Literal.{out-Literal};
ghost use Rattle.fly_types.specs.Sound.{IsSound};
ghost use Rattle.fly_types.specs.Membership.{IsMember};
ghost use Rattle.fly_cast.specs.Target.{IsTarget};
ghost use Rattle.fly_cast.specs.Castable.{sole_element};
ghost use Rattle.fly_cast.specs.Fitting.{IsFitted, each_value, entry_value, fitting_of_elements, fitting_of_entries, fitting_into_union, fitting_into_one, fitting_by_form, fitting_of};

use fly_types::{Boxed, List, Literal, LiteralType, NoMemory, Text, is_member};
use std::alloc::{AllocError, AllocFailed, Global};

/// Why a plain value was not fitted.
#[derive(Clone, Copy, Debug, PartialEq, Eq)]
pub enum FitFault {
    DoesNotFit,
    NoMemory,
}

/// The literal as one of the type `kind`. It is moved, and no part that stays is copied.
pub fn fit(alloc: Global, literal: Literal, kind: &LiteralType) -> Result<Literal, FitFault>
    ensures value { IsFitted (fitting_of literal kind.now) result }
    ensures target { IfOk result (IsMember kind.now) }
    ensures sound { IsSound literal → IsTarget kind.now → IfOk result IsSound }
{
    fit_by_rule(alloc, literal, kind)
}

#[cycle(fit)]
fn fit_by_rule(alloc: Global, literal: Literal, kind: &LiteralType) -> Result<Literal, FitFault>
    ensures { IsFitted (fitting_of literal kind.now) result }
{
    if is_member(&literal, kind) {
        return Ok(literal);
    }
    fit_form(alloc, literal, kind)
}

/// By the rules for a literal that is not of the type.
#[cycle(fit)]
fn fit_form(alloc: Global, literal: Literal, kind: &LiteralType) -> Result<Literal, FitFault>
    ensures { IsFitted (fitting_by_form fitting_of literal (out-LiteralType kind.now)) result }
{
    match kind {
        LiteralType::Collection(element) => fit_collection(alloc, literal, element.get()),
        LiteralType::Map(value) => fit_map(alloc, literal, value.get()),
        LiteralType::Union(variants) => fit_union(alloc, literal, variants.as_slice()),
        _ => Err(FitFault::DoesNotFit),
    }
}

#[cycle(fit)]
fn fit_union(alloc: Global, literal: Literal, variants: &[LiteralType]) -> Result<Literal, FitFault>
    ensures { IsFitted (fitting_into_union (fitting_of literal) variants.now (out-Literal literal)) result }
{
    match literal {
        Literal::Union { .. } => Err(FitFault::DoesNotFit),
        plain => fit_into_union(alloc, plain, variants),
    }
}

#[cycle(fit)]
fn fit_into_union(
    alloc: Global,
    literal: Literal,
    variants: &[LiteralType],
) -> Result<Literal, FitFault>
    ensures { IsFitted (fitting_into_one (fitting_of literal) variants.now) result }
{
    match only_fitting(&literal, variants) {
        Some(variant) => {
            let value = fit_by_rule(alloc, literal, variant)?;
            let value = Boxed::new(alloc, value)?;
            let variant = Boxed::new(alloc, variant.copy(alloc)?)?;
            Ok(Literal::Union { value, variant })
        }
        None => Err(FitFault::DoesNotFit),
    }
}

#[cycle(fit)]
fn fit_collection(
    alloc: Global,
    literal: Literal,
    element: &LiteralType,
) -> Result<Literal, FitFault>
    ensures { IsFitted (fitting_of_elements (λ e. fitting_of e element.now) (out-Literal literal)) result }
{
    match literal {
        Literal::Collection(elements) => {
            let fitted = fit_elements(alloc, elements.into_vec(), element)?;
            Ok(Literal::Collection(fitted))
        }
        _ => Err(FitFault::DoesNotFit),
    }
}

#[cycle(fit)]
fn fit_elements(
    alloc: Global,
    elements: Vec<Literal>,
    kind: &LiteralType,
) -> Result<List<Literal>, FitFault>
    ensures { IsFitted (each_value (λ e. fitting_of e kind.now) elements.items) result }
{
    let mut fitted = Vec::with_capacity(alloc, elements.len())?;
    for element in elements {
        fitted.push(fit_by_rule(alloc, element, kind)?)?;
    }
    Ok(List::from_vec(fitted))
}

#[cycle(fit)]
fn fit_map(alloc: Global, literal: Literal, value: &LiteralType) -> Result<Literal, FitFault>
    ensures { IsFitted (fitting_of_entries (λ e. fitting_of e value.now) (out-Literal literal)) result }
{
    match literal {
        Literal::Map(entries) => {
            let fitted = fit_entries(alloc, entries.into_vec(), value)?;
            Ok(Literal::Map(fitted))
        }
        _ => Err(FitFault::DoesNotFit),
    }
}

#[cycle(fit)]
fn fit_entries(
    alloc: Global,
    entries: Vec<(Text, Literal)>,
    kind: &LiteralType,
) -> Result<List<(Text, Literal)>, FitFault>
    ensures { IsFitted (each_value (entry_value (λ e. fitting_of e kind.now)) entries.items) result }
{
    let mut fitted = Vec::with_capacity(alloc, entries.len())?;
    for (name, value) in entries {
        let value = fit_by_rule(alloc, value, kind)?;
        fitted.push((name, value))?;
    }
    Ok(List::from_vec(fitted))
}

/// Whether the literal fits the type: whether `fit` would give one.
#[cycle(does_fit)]
pub fn does_fit(literal: &Literal, kind: &LiteralType) -> bool
    ensures { result ≡ is_some (fitting_of literal.now kind.now) }
{
    is_member(literal, kind) || does_form_fit(literal, kind)
}

#[cycle(does_fit)]
fn does_form_fit(literal: &Literal, kind: &LiteralType) -> bool
    ensures { result ≡ is_some (fitting_by_form fitting_of literal.now (out-LiteralType kind.now)) }
{
    match kind {
        LiteralType::Collection(element) => match literal {
            Literal::Collection(elements) => do_elements_fit(elements.as_slice(), element.get()),
            _ => false,
        },
        LiteralType::Map(value) => match literal {
            Literal::Map(entries) => do_values_fit(entries.as_slice(), value.get()),
            _ => false,
        },
        LiteralType::Union(variants) => does_fit_union(literal, variants.as_slice()),
        _ => false,
    }
}

#[cycle(does_fit)]
fn does_fit_union(literal: &Literal, variants: &[LiteralType]) -> bool
    ensures { result ≡ is_some (fitting_into_union (fitting_of literal.now) variants.now (out-Literal literal.now)) }
{
    match literal {
        Literal::Union { .. } => false,
        _ => only_fitting(literal, variants).is_some(),
    }
}

#[cycle(does_fit)]
fn do_elements_fit(elements: &[Literal], kind: &LiteralType) -> bool
    ensures { result ≡ list_all (λ e. is_some (fitting_of e kind.now)) elements.now }
{
    for element in elements {
        if !does_fit(element, kind) {
            return false;
        }
    }
    true
}

#[cycle(does_fit)]
fn do_values_fit(entries: &[(Text, Literal)], kind: &LiteralType) -> bool
    ensures { result ≡ list_all (λ e. is_some (fitting_of e.1 kind.now)) entries.now }
{
    for (_, value) in entries {
        if !does_fit(value, kind) {
            return false;
        }
    }
    true
}

/// The one variant that the literal fits. None where there are two, or none.
#[cycle(does_fit)]
fn only_fitting<'a>(literal: &Literal, variants: &'a [LiteralType]) -> Option<&'a LiteralType>
    ensures { option_copied result ≡ sole_element (filter (λ variant. is_some (fitting_of literal.now variant)) variants.now) }
{
    let mut fitting = None;
    for variant in variants {
        if does_fit(literal, variant) {
            if fitting.is_some() {
                return None;
            }
            fitting = Some(variant);
        }
    }
    fitting
}

impl From<NoMemory> for FitFault {
    ghost use Rattle.std.specs.Prelude.{◌≡◌};
    ghost use Rattle.fly_cast.specs.declared.fitting.FitFault.TheVariants as fault;

    ghost from_gives = { λ _ e. e ≡ fault.NoMemory };

    fn from(_: NoMemory) -> FitFault {
        FitFault::NoMemory
    }
}

impl From<AllocError> for FitFault {
    ghost use Rattle.std.specs.Prelude.{◌≡◌};
    ghost use Rattle.fly_cast.specs.declared.fitting.FitFault.TheVariants as fault;

    ghost from_gives = { λ _ e. e ≡ fault.NoMemory };

    fn from(_: AllocError) -> FitFault {
        FitFault::NoMemory
    }
}

impl<T: Drop> From<AllocFailed<T>> for FitFault {
    ghost use Rattle.std.specs.Prelude.{◌≡◌};
    ghost use Rattle.fly_cast.specs.declared.fitting.FitFault.TheVariants as fault;

    ghost from_gives = { λ _ e. e ≡ fault.NoMemory };

    fn from(_: AllocFailed<T>) -> FitFault {
        FitFault::NoMemory
    }
}
