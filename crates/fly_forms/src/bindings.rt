//! The form of what is bound.
ghost use Rattle.std.specs.Prelude.{◌≡◌, ◌↔◌, IsTrue};
ghost use Rattle.std.specs.List.{All};
ghost use Rattle.fly_types.specs.declared.literals.Literal.{out-Literal};
ghost use Rattle.fly_types.specs.Sound.{AreNamesSorted};
ghost use Rattle.fly_docs.specs.Form.{IsNoContainer, IsBoundInForm, AreBindingsInForm};

use fly_docs::{Binding, Bound};
use fly_types::{Literal, Text};

pub(crate) fn are_bindings_in_form(bindings: &[Binding]) -> bool
    ensures { IsTrue result ↔ AreBindingsInForm bindings.now }
{
    for binding in bindings {
        if !is_bound_in_form(&binding.bound) {
            return false;
        }
    }
    true
}

#[cycle(bound_in_form)]
fn is_bound_in_form(bound: &Bound) -> bool
    ensures { IsTrue result ↔ IsBoundInForm bound.now }
{
    match bound {
        Bound::Scalar(literal) => is_no_container(literal),
        Bound::Collection(elements) => are_bounds_in_form(elements.as_slice()),
        Bound::Map(entries) => is_map_in_form(entries.as_slice()),
        Bound::Promise { .. } => true,
    }
}

fn is_no_container(literal: &Literal) -> bool
    ensures { IsTrue result ↔ IsNoContainer (out-Literal literal.now) }
{
    !matches!(literal, Literal::Collection(_) | Literal::Map(_))
}

#[cycle(bound_in_form)]
fn are_bounds_in_form(bounds: &[Bound]) -> bool
    ensures { IsTrue result ↔ All IsBoundInForm bounds.now }
{
    for bound in bounds {
        if !is_bound_in_form(bound) {
            return false;
        }
    }
    true
}

#[cycle(bound_in_form)]
fn is_map_in_form(entries: &[(Text, Bound)]) -> bool
    ensures { IsTrue result ↔ (AreNamesSorted entries.now × All (λ entry. IsBoundInForm entry.1) entries.now) }
{
    are_names_sorted(entries) && are_values_in_form(entries)
}

/// Whether the names rise by their bytes, so that none comes twice.
fn are_names_sorted(entries: &[(Text, Bound)]) -> bool
    ensures { IsTrue result ↔ AreNamesSorted entries.now }
{
    for i in 1..entries.len() {
        if entries[i - 1].0 >= entries[i].0 {
            return false;
        }
    }
    true
}

#[cycle(bound_in_form)]
fn are_values_in_form(entries: &[(Text, Bound)]) -> bool
    ensures { IsTrue result ↔ All (λ entry. IsBoundInForm entry.1) entries.now }
{
    for (_, value) in entries {
        if !is_bound_in_form(value) {
            return false;
        }
    }
    true
}
