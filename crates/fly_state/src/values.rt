//! The values of bindings in a state.
ghost use Rattle.std.specs.Prelude.{◌≡◌, [], map, filter, IsTrue};
ghost use Rattle.std.specs.List.{All};
ghost use Rattle.fly_cast.specs.Castable.{sole_element};
ghost use Rattle.fly_cast.specs.Conversion.{each_result, entry_result};
ghost use Rattle.fly_cast.specs.Fitting.{fitting_of};
ghost use Rattle.fly_docs.specs.Bindings.{source_node};
ghost use Rattle.fly_docs.specs.Fitting.{bound_fits, source_fits};
ghost use Rattle.fly_docs.specs.SlotInputs as docs;
ghost use Rattle.fly_docs.specs.SlotInputs.{bound_value, values_of};
ghost use Rattle.fly_state.specs.Origins.{source_in_run};
ghost use Rattle.fly_state.specs.States.{known_in};
ghost use Rattle.fly_state.specs.Sites.{binding_place};
ghost use Rattle.fly_state.specs.Values.{IsTaken, HasKnownTypes, FitVariable, FitVariables};

use crate::fits::only_fitting;
use crate::origins::Origin;
use crate::reads::known_literal;
use crate::{ExecState, Plan};
use fly_cast::{ConvertFault, FitFault, convert, fit};
use fly_docs::{Binding, Bound};
use fly_types::{Boxed, List, Literal, LiteralMap, LiteralType, NoMemory, Text, Variable};
use std::alloc::{AllocError, AllocFailed, Global};

/// Why a value is not there.
#[derive(Debug, Drop)]
pub enum ValueFault {
    /// This text is no value of its enum.
    Outside(Text),
    /// Something that it is made of is not known.
    Unknown,
    NoMemory,
}

/// The values of variables under their names, each by the binding at its place.
pub(crate) fn take_variables(
    alloc: Global,
    plan: &Plan,
    state: &ExecState,
    variables: &[Variable],
    bindings: &List<Binding>,
    places: &[Option<usize>],
) -> Result<LiteralMap, ValueFault>
    requires known { HasKnownTypes plan.now state.now }
    requires fit { FitVariables (source_in_run plan.now) bindings.now variables.now }
    requires places { places.now ≡ map (binding_place bindings.now) variables.now }
    ensures { IsTaken (values_of (bound_value (source_in_run plan.now) (known_in plan.now state.now [])) variables.now bindings.now) result }
{
    let mut entries = Vec::with_capacity(alloc, variables.len())?;
    for (i, variable) in variables.iter().enumerate() {
        match take_variable(alloc, plan, state, variable, bindings, places[i]) {
            Ok(entry) => entries.push(entry)?,
            Err(fault) => return Err(fault),
        }
    }
    Ok(LiteralMap {
        entries: List::from_vec(entries),
    })
}

/// The value of one variable under its name.
fn take_variable(
    alloc: Global,
    plan: &Plan,
    state: &ExecState,
    variable: &Variable,
    bindings: &List<Binding>,
    place: Option<usize>,
) -> Result<(Text, Literal), ValueFault>
    requires known { HasKnownTypes plan.now state.now }
    requires fit { FitVariable (source_in_run plan.now) bindings.now variable.now }
    requires place { place ≡ binding_place bindings.now variable.now }
    ensures { IsTaken (docs.variable_value (bound_value (source_in_run plan.now) (known_in plan.now state.now [])) bindings.now variable.now) result }
{
    let Some(place) = place else {
        return Err(ValueFault::Unknown);
    };
    let Some(binding) = bindings.get(place) else {
        return Err(ValueFault::Unknown);
    };
    match take_bound(alloc, plan, state, &binding.bound, &variable.kind) {
        Ok(value) => Ok((variable.name.copy(alloc)?, value)),
        Err(fault) => Err(fault),
    }
}

/// What is bound, as a value of the type.
#[cycle(value)]
fn take_bound(
    alloc: Global,
    plan: &Plan,
    state: &ExecState,
    x: &Bound,
    kind: &LiteralType,
) -> Result<Literal, ValueFault>
    requires { HasKnownTypes plan.now state.now × IsTrue (bound_fits (source_in_run plan.now) x.now kind.now) }
    ensures { IsTaken (bound_value (source_in_run plan.now) (known_in plan.now state.now []) x.now kind.now) result }
{
    match x {
        Bound::Promise { node, var } => take_promise(alloc, plan, state, node, var, kind),
        Bound::Scalar(literal) => take_scalar(alloc, literal, kind),
        Bound::Collection(elements) => match kind {
            LiteralType::Collection(element) => {
                match take_elements(alloc, plan, state, elements.as_slice(), element.get()) {
                    Ok(values) => Ok(Literal::Collection(values)),
                    Err(fault) => Err(fault),
                }
            }
            LiteralType::Union(variants) => {
                take_variant(alloc, plan, state, x, variants.as_slice())
            }
            _ => Err(ValueFault::Unknown),
        },
        Bound::Map(entries) => match kind {
            LiteralType::Map(value) => {
                match take_entries(alloc, plan, state, entries.as_slice(), value.get()) {
                    Ok(values) => Ok(Literal::Map(values)),
                    Err(fault) => Err(fault),
                }
            }
            LiteralType::Union(variants) => {
                take_variant(alloc, plan, state, x, variants.as_slice())
            }
            _ => Err(ValueFault::Unknown),
        },
    }
}

/// As a scalar of the one variant that it fits.
#[cycle(value)]
fn take_variant(
    alloc: Global,
    plan: &Plan,
    state: &ExecState,
    x: &Bound,
    variants: &[LiteralType],
) -> Result<Literal, ValueFault>
    requires { HasKnownTypes plan.now state.now }
    ensures { IsTaken (docs.variant_value (bound_value (source_in_run plan.now) (known_in plan.now state.now []) x.now)
        (sole_element (filter (bound_fits (source_in_run plan.now) x.now) variants.now))) result }
{
    let Some(variant) = only_fitting(plan, x, variants) else {
        return Err(ValueFault::Unknown);
    };
    match take_bound(alloc, plan, state, x, variant) {
        Ok(value) => {
            let value = Boxed::new(alloc, value)?;
            let variant = Boxed::new(alloc, variant.copy(alloc)?)?;
            Ok(Literal::Union { value, variant })
        }
        Err(fault) => Err(fault),
    }
}

#[cycle(value)]
fn take_elements(
    alloc: Global,
    plan: &Plan,
    state: &ExecState,
    elements: &[Bound],
    kind: &LiteralType,
) -> Result<List<Literal>, ValueFault>
    requires { HasKnownTypes plan.now state.now × All (λ e. IsTrue (bound_fits (source_in_run plan.now) e kind.now)) elements.now }
    ensures { IsTaken (each_result (λ e. bound_value (source_in_run plan.now) (known_in plan.now state.now []) e kind.now) elements.now) result }
{
    let mut values = Vec::with_capacity(alloc, elements.len())?;
    for element in elements {
        match take_bound(alloc, plan, state, element, kind) {
            Ok(value) => values.push(value)?,
            Err(fault) => return Err(fault),
        }
    }
    Ok(List::from_vec(values))
}

#[cycle(value)]
fn take_entries(
    alloc: Global,
    plan: &Plan,
    state: &ExecState,
    entries: &[(Text, Bound)],
    kind: &LiteralType,
) -> Result<List<(Text, Literal)>, ValueFault>
    requires { HasKnownTypes plan.now state.now × All (λ e. IsTrue (bound_fits (source_in_run plan.now) e.1 kind.now)) entries.now }
    ensures { IsTaken (each_result (entry_result (λ e. bound_value (source_in_run plan.now) (known_in plan.now state.now []) e kind.now)) entries.now) result }
{
    let mut values = Vec::with_capacity(alloc, entries.len())?;
    for (name, bound) in entries {
        match take_bound(alloc, plan, state, bound, kind) {
            Ok(value) => values.push((name.copy(alloc)?, value))?,
            Err(fault) => return Err(fault),
        }
    }
    Ok(List::from_vec(values))
}

/// What was promised, converted from its own type.
fn take_promise(
    alloc: Global,
    plan: &Plan,
    state: &ExecState,
    node: &Text,
    var: &Text,
    kind: &LiteralType,
) -> Result<Literal, ValueFault>
    requires known { HasKnownTypes plan.now state.now }
    requires fits { IsTrue (source_fits kind.now (source_in_run plan.now (source_node node.now, var.now))) }
    ensures { IsTaken (docs.promise_value kind.now (source_in_run plan.now (source_node node.now, var.now))
        (docs.known_literal (known_in plan.now state.now []) (source_node node.now, var.now))) result }
{
    let Origin::Type(own) = plan.source(node, var) else {
        return Err(ValueFault::Unknown);
    };
    let Some(literal) = known_literal(plan, state, node, var) else {
        return Err(ValueFault::Unknown);
    };
    match convert(alloc, literal.copy(alloc)?, own, kind) {
        Ok(value) => Ok(value),
        Err(ConvertFault::EnumOutside { text }) => Err(ValueFault::Outside(text)),
        Err(ConvertFault::NoMemory) => Err(ValueFault::NoMemory),
    }
}

/// A value that is written in the document, as one of the type.
fn take_scalar(alloc: Global, literal: &Literal, kind: &LiteralType) -> Result<Literal, ValueFault>
    ensures { IsTaken (docs.or_unknown (fitting_of literal.now kind.now)) result }
{
    match fit(alloc, literal.copy(alloc)?, kind) {
        Ok(value) => Ok(value),
        Err(FitFault::DoesNotFit) => Err(ValueFault::Unknown),
        Err(FitFault::NoMemory) => Err(ValueFault::NoMemory),
    }
}

impl From<NoMemory> for ValueFault {
    ghost use Rattle.std.specs.Prelude.{◌≡◌};
    ghost use Rattle.fly_state.specs.declared.values.ValueFault.TheVariants as fault;

    ghost from_gives = { λ _ e. e ≡ fault.NoMemory };

    fn from(_: NoMemory) -> ValueFault {
        ValueFault::NoMemory
    }
}

impl From<AllocError> for ValueFault {
    ghost use Rattle.std.specs.Prelude.{◌≡◌};
    ghost use Rattle.fly_state.specs.declared.values.ValueFault.TheVariants as fault;

    ghost from_gives = { λ _ e. e ≡ fault.NoMemory };

    fn from(_: AllocError) -> ValueFault {
        ValueFault::NoMemory
    }
}

impl<T: Drop> From<AllocFailed<T>> for ValueFault {
    ghost use Rattle.std.specs.Prelude.{◌≡◌};
    ghost use Rattle.fly_state.specs.declared.values.ValueFault.TheVariants as fault;

    ghost from_gives = { λ _ e. e ≡ fault.NoMemory };

    fn from(_: AllocFailed<T>) -> ValueFault {
        ValueFault::NoMemory
    }
}
