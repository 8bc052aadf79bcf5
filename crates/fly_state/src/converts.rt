//! Whether a literal converts, told without making anything.
ghost use Rattle.std.specs.Prelude.{◌≡◌, is_ok, filter};
ghost use Rattle.std.specs.List.{All, list_all};
ghost use Rattle.std.specs.Option.{option_copied};
ghost use Rattle.fly_types.specs.declared.kinds.LiteralType.{out-LiteralType};
ghost use Rattle.fly_types.specs.declared.literals.Literal.{out-Literal};
ghost use Rattle.fly_types.specs.Membership.{IsMember, IsCollectionOf, IsMapOf};
ghost use Rattle.fly_cast.specs.Castable as casts;
ghost use Rattle.fly_cast.specs.Castable.{sole_element};
ghost use Rattle.fly_cast.specs.Conversion.{conversion_of_value, conversion_of_elements, conversion_of_entries, conversion_of_text, conversion_of_plain, conversion_by_form, conversion_of};
ghost use Rattle.fly_state.specs.Converts.{IsUnionType};

use fly_cast::is_castable;
use fly_types::{Literal, LiteralType, Simple, Text};

/// Whether a literal of type `a` becomes one of type `b`, with no text that its enum lacks.
///
/// Takes no memory, and for each part of the literal the time that the castability of its types takes.
#[cycle(converts)]
pub(crate) fn does_convert(literal: &Literal, a: &LiteralType, b: &LiteralType) -> bool
    requires { IsMember a.now literal.now }
    ensures { result ≡ is_ok (conversion_of literal.now a.now b.now) }
{
    a.is_same(b) || does_form_convert(literal, a, b)
}

/// By the rules for two types that differ.
#[cycle(converts)]
fn does_form_convert(literal: &Literal, a: &LiteralType, b: &LiteralType) -> bool
    requires { IsMember a.now literal.now }
    ensures { result ≡ is_ok (conversion_by_form conversion_of literal.now a.now b.now (out-LiteralType a.now) (out-LiteralType b.now)) }
{
    if let LiteralType::Union(_) = a {
        return does_value_convert(literal, a, b);
    }
    if let LiteralType::Union(variants) = b {
        return match only_taker(a, variants.as_slice()) {
            Some(variant) => does_convert(literal, a, variant),
            None => true,
        };
    }
    match a {
        LiteralType::Collection(from) => match b {
            LiteralType::Collection(to) => do_elements_convert(literal, from.get(), to.get()),
            _ => true,
        },
        LiteralType::Map(from) => match b {
            LiteralType::Map(to) => do_values_convert(literal, from.get(), to.get()),
            _ => true,
        },
        _ => does_text_stay(literal, a, b),
    }
}

/// The value of a union scalar, from its own variant.
#[cycle(converts)]
fn does_value_convert(literal: &Literal, a: &LiteralType, b: &LiteralType) -> bool
    requires member { IsMember a.now literal.now }
    requires union { IsUnionType (out-LiteralType a.now) }
    ensures { result ≡ is_ok (conversion_of_value (λ value variant. conversion_of value variant b.now) literal.now (out-Literal literal.now)) }
{
    match literal {
        Literal::Union { value, variant } => does_convert(value.get(), variant.get(), b),
        _ => true,
    }
}

#[cycle(converts)]
fn do_elements_convert(literal: &Literal, a: &LiteralType, b: &LiteralType) -> bool
    requires { IsCollectionOf (IsMember a.now) (out-Literal literal.now) }
    ensures { result ≡ is_ok (conversion_of_elements (λ e. conversion_of e a.now b.now) literal.now (out-Literal literal.now)) }
{
    match literal {
        Literal::Collection(elements) => do_all_convert(elements.as_slice(), a, b),
        _ => true,
    }
}

#[cycle(converts)]
fn do_all_convert(elements: &[Literal], a: &LiteralType, b: &LiteralType) -> bool
    requires { All (IsMember a.now) elements.now }
    ensures { result ≡ list_all (λ e. is_ok (conversion_of e a.now b.now)) elements.now }
{
    for element in elements {
        if !does_convert(element, a, b) {
            return false;
        }
    }
    true
}

#[cycle(converts)]
fn do_values_convert(literal: &Literal, a: &LiteralType, b: &LiteralType) -> bool
    requires { IsMapOf (IsMember a.now) (out-Literal literal.now) }
    ensures { result ≡ is_ok (conversion_of_entries (λ e. conversion_of e a.now b.now) literal.now (out-Literal literal.now)) }
{
    match literal {
        Literal::Map(entries) => do_all_values_convert(entries.as_slice(), a, b),
        _ => true,
    }
}

#[cycle(converts)]
fn do_all_values_convert(entries: &[(Text, Literal)], a: &LiteralType, b: &LiteralType) -> bool
    requires { All (λ entry. IsMember a.now entry.1) entries.now }
    ensures { result ≡ list_all (λ entry. is_ok (conversion_of entry.1 a.now b.now)) entries.now }
{
    for (_, value) in entries {
        if !does_convert(value, a, b) {
            return false;
        }
    }
    true
}

/// Whether a literal without parts stays: an enum refuses other texts.
fn does_text_stay(literal: &Literal, a: &LiteralType, b: &LiteralType) -> bool
    ensures { result ≡ is_ok (conversion_of_plain literal.now (out-LiteralType a.now) (out-LiteralType b.now)) }
{
    match a {
        LiteralType::Simple(Simple::Text) => match b {
            LiteralType::Enum(values) => is_text_among(literal, values.as_slice()),
            _ => true,
        },
        _ => true,
    }
}

fn is_text_among(literal: &Literal, values: &[Text]) -> bool
    ensures { result ≡ is_ok (conversion_of_text values.now literal.now (out-Literal literal.now)) }
{
    match literal {
        Literal::Text(text) => values.contains(text),
        _ => true,
    }
}

/// The one variant to which `a` is castable. None where there are two, or none.
fn only_taker<'a>(a: &LiteralType, variants: &'a [LiteralType]) -> Option<&'a LiteralType>
    ensures { option_copied result ≡ sole_element (filter (casts.is_castable a.now) variants.now) }
{
    let mut taker = None;
    for variant in variants {
        if is_castable(a, variant) {
            if taker.is_some() {
                return None;
            }
            taker = Some(variant);
        }
    }
    taker
}
