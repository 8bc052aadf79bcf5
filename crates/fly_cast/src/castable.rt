ghost use Rattle.std.specs.Prelude.{◌≡◌, ◌↔◌, IsTrue, filter};
ghost use Rattle.std.specs.List.{list_all};
ghost use Rattle.std.specs.Option.{option_copied};
ghost use Rattle.fly_types.specs.declared.kinds.LiteralType.{out-LiteralType};
ghost use Rattle.fly_cast.specs.Castable.{is_among, sole_element, is_enum_castable, is_castable_by_form, is_castable};

use fly_types::{List, LiteralType, Simple, Text};

/// Whether a literal of type `a` may go where one of type `b` is wanted.
///
/// The work is at most the product of the sizes of the two types, times their levels.
#[cycle(castable)]
pub fn is_castable(a: &LiteralType, b: &LiteralType) -> bool
    ensures { result ≡ is_castable a.now b.now }
{
    a.is_same(b) || do_forms_cast(a, b)
}

/// Whether the first rule for two types that differ lets the one cast to the other.
#[cycle(castable)]
fn do_forms_cast(a: &LiteralType, b: &LiteralType) -> bool
    ensures { result ≡ is_castable_by_form is_castable a.now b.now (out-LiteralType a.now) (out-LiteralType b.now) }
{
    if let LiteralType::Union(variants) = a {
        return do_all_cast(variants.as_slice(), b);
    }
    if let LiteralType::Union(variants) = b {
        return only_taker(a, variants.as_slice()).is_some();
    }
    match a {
        LiteralType::Collection(from) => match b {
            LiteralType::Collection(to) => is_castable(from.get(), to.get()),
            _ => false,
        },
        LiteralType::Map(from) => match b {
            LiteralType::Map(to) => is_castable(from.get(), to.get()),
            _ => false,
        },
        _ => does_enum_cast(a, b),
    }
}

#[cycle(castable)]
fn do_all_cast(variants: &[LiteralType], b: &LiteralType) -> bool
    ensures { result ≡ list_all (λ variant. is_castable variant b.now) variants.now }
{
    for variant in variants {
        if !is_castable(variant, b) {
            return false;
        }
    }
    true
}

/// The one variant to which `a` is castable. None where there are two, or none.
#[cycle(castable)]
pub(crate) fn only_taker<'a>(
    a: &LiteralType,
    variants: &'a [LiteralType],
) -> Option<&'a LiteralType>
    ensures { option_copied result ≡ sole_element (filter (is_castable a.now) variants.now) }
{
    let mut taker = None;
    for variant in variants {
        if is_castable(a, variant) {
            if taker.is_some() {
                return None;
            }
            taker = Some(variant);
        }
    }
    taker
}

fn does_enum_cast(a: &LiteralType, b: &LiteralType) -> bool
    ensures { result ≡ is_enum_castable (out-LiteralType a.now) (out-LiteralType b.now) }
{
    match a {
        LiteralType::Enum(values) => match b {
            LiteralType::Simple(Simple::Text) => true,
            LiteralType::Enum(others) => are_all_among(others.as_slice(), values.as_slice()),
            _ => false,
        },
        LiteralType::Simple(Simple::Text) => match b {
            LiteralType::Enum(_) => true,
            _ => false,
        },
        _ => false,
    }
}

/// Whether the text is one of the values of an enum.
pub(crate) fn is_value(values: &[Text], text: &Text) -> bool
    ensures { result ≡ is_among values.now text.now }
{
    values.contains(text)
}

fn are_all_among(values: &[Text], texts: &[Text]) -> bool
    ensures { result ≡ list_all (is_among values.now) texts.now }
{
    texts.iter().all(|text| is_value(values, text))
}
