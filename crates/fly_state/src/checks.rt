//! What comes of values that are asked for, told without making them.
ghost use Rattle.std.specs.Prelude.{◌≡◌, [], map, filter};
ghost use Rattle.fly_cast.specs.Castable.{sole_element};
ghost use Rattle.fly_cast.specs.Conversion.{each_result, entry_result};
ghost use Rattle.fly_docs.specs.Bindings.{source_node};
ghost use Rattle.fly_docs.specs.Fitting.{bound_fits};
ghost use Rattle.fly_docs.specs.SlotInputs as docs;
ghost use Rattle.fly_docs.specs.SlotInputs.{bound_value, values_of};
ghost use Rattle.fly_state.specs.Origins.{source_in_run};
ghost use Rattle.fly_state.specs.States.{known_in};
ghost use Rattle.fly_state.specs.Sites.{binding_place};
ghost use Rattle.fly_state.specs.Checks.{IsTakingOf};
ghost use Rattle.fly_state.specs.Values.{HasKnownTypes};

use crate::converts::does_convert;
use crate::fits::only_fitting;
use crate::origins::Origin;
use crate::reads::known_literal;
use crate::{ExecState, Plan};
use fly_cast::does_fit;
use fly_docs::{Binding, Bound};
use fly_types::{List, LiteralType, Text, Variable};

/// What comes of values.
#[derive(Clone, Copy, Debug, PartialEq, Eq)]
pub(crate) enum Taking {
    /// They are there.
    There,
    /// A text is no value of its enum.
    Outside,
    /// Something that they are made of is not known.
    Unknown,
}

/// What comes of the values of variables, each by the binding at its place.
pub(crate) fn check_variables(
    plan: &Plan,
    state: &ExecState,
    variables: &[Variable],
    bindings: &List<Binding>,
    places: &[Option<usize>],
) -> Taking
    requires known { HasKnownTypes plan.now state.now }
    requires places { places.now ≡ map (binding_place bindings.now) variables.now }
    ensures { IsTakingOf (values_of (bound_value (source_in_run plan.now) (known_in plan.now state.now [])) variables.now bindings.now) result }
{
    for (i, variable) in variables.iter().enumerate() {
        match check_variable(plan, state, variable, bindings, places[i]) {
            Taking::There => {}
            other => return other,
        }
    }
    Taking::There
}

/// What comes of the value of one variable.
fn check_variable(
    plan: &Plan,
    state: &ExecState,
    variable: &Variable,
    bindings: &List<Binding>,
    place: Option<usize>,
) -> Taking
    requires known { HasKnownTypes plan.now state.now }
    requires place { place ≡ binding_place bindings.now variable.now }
    ensures { IsTakingOf (docs.variable_value (bound_value (source_in_run plan.now) (known_in plan.now state.now [])) bindings.now variable.now) result }
{
    let Some(place) = place else {
        return Taking::Unknown;
    };
    match bindings.get(place) {
        Some(binding) => check_bound(plan, state, &binding.bound, &variable.kind),
        None => Taking::Unknown,
    }
}

/// What comes of what is bound, as a value of the type.
#[cycle(check)]
fn check_bound(plan: &Plan, state: &ExecState, x: &Bound, kind: &LiteralType) -> Taking
    requires { HasKnownTypes plan.now state.now }
    ensures { IsTakingOf (bound_value (source_in_run plan.now) (known_in plan.now state.now []) x.now kind.now) result }
{
    match x {
        Bound::Promise { node, var } => check_promise(plan, state, node, var, kind),
        Bound::Scalar(literal) => {
            if does_fit(literal, kind) {
                Taking::There
            } else {
                Taking::Unknown
            }
        }
        Bound::Collection(elements) => match kind {
            LiteralType::Collection(element) => {
                check_elements(plan, state, elements.as_slice(), element.get())
            }
            LiteralType::Union(variants) => check_variants(plan, state, x, variants.as_slice()),
            _ => Taking::Unknown,
        },
        Bound::Map(entries) => match kind {
            LiteralType::Map(value) => {
                check_entries(plan, state, entries.as_slice(), value.get())
            }
            LiteralType::Union(variants) => check_variants(plan, state, x, variants.as_slice()),
            _ => Taking::Unknown,
        },
    }
}

/// As a value of the one variant that it fits.
#[cycle(check)]
fn check_variants(plan: &Plan, state: &ExecState, x: &Bound, variants: &[LiteralType]) -> Taking
    requires { HasKnownTypes plan.now state.now }
    ensures { IsTakingOf (docs.variant_value (bound_value (source_in_run plan.now) (known_in plan.now state.now []) x.now)
        (sole_element (filter (bound_fits (source_in_run plan.now) x.now) variants.now))) result }
{
    match only_fitting(plan, x, variants) {
        Some(variant) => check_bound(plan, state, x, variant),
        None => Taking::Unknown,
    }
}

#[cycle(check)]
fn check_elements(plan: &Plan, state: &ExecState, elements: &[Bound], kind: &LiteralType) -> Taking
    requires { HasKnownTypes plan.now state.now }
    ensures { IsTakingOf (each_result (λ e. bound_value (source_in_run plan.now) (known_in plan.now state.now []) e kind.now) elements.now) result }
{
    for element in elements {
        match check_bound(plan, state, element, kind) {
            Taking::There => {}
            other => return other,
        }
    }
    Taking::There
}

#[cycle(check)]
fn check_entries(
    plan: &Plan,
    state: &ExecState,
    entries: &[(Text, Bound)],
    kind: &LiteralType,
) -> Taking
    requires { HasKnownTypes plan.now state.now }
    ensures { IsTakingOf (each_result (entry_result (λ e. bound_value (source_in_run plan.now) (known_in plan.now state.now []) e kind.now)) entries.now) result }
{
    for (_, value) in entries {
        match check_bound(plan, state, value, kind) {
            Taking::There => {}
            other => return other,
        }
    }
    Taking::There
}

/// As a value of the type, of what is known of a promise.
fn check_promise(
    plan: &Plan,
    state: &ExecState,
    node: &Text,
    var: &Text,
    kind: &LiteralType,
) -> Taking
    requires { HasKnownTypes plan.now state.now }
    ensures { IsTakingOf (docs.promise_value kind.now (source_in_run plan.now (source_node node.now, var.now))
        (docs.known_literal (known_in plan.now state.now []) (source_node node.now, var.now))) result }
{
    let Origin::Type(own) = plan.source(node, var) else {
        return Taking::Unknown;
    };
    match known_literal(plan, state, node, var) {
        Some(literal) => {
            if does_convert(literal, own, kind) {
                Taking::There
            } else {
                Taking::Outside
            }
        }
        None => Taking::Unknown,
    }
}
