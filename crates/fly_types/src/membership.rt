ghost use Rattle.std.specs.Prelude.{◌≡◌, ◌↔◌, IsTrue};
ghost use Rattle.std.specs.List.{All};
ghost use Rattle.fly_types.specs.declared.literals.Literal.{out-Literal};
ghost use Rattle.fly_types.specs.Membership.{IsMember, IsCollectionOf, IsMapOf, IsBlobOf, IsTextAmong, IsUnionWhere, IsVariant, simple_type};

use crate::same::is_same_form;
use crate::{BlobType, List, Literal, LiteralType, Simple, Text};

/// Whether the literal is of the type. A union scalar is of a union type where its variant is one of the type's and
/// its value is of that variant; the same value under another variant isn't.
#[cycle(member)]
pub fn is_member(literal: &Literal, kind: &LiteralType) -> bool
    ensures { IsTrue result ↔ IsMember kind.now literal.now }
{
    match kind {
        LiteralType::Simple(simple) => is_scalar_of(literal, *simple),
        LiteralType::Collection(element) => is_collection_of(literal, element.get()),
        LiteralType::Map(value) => is_map_of(literal, value.get()),
        LiteralType::Blob(form) => is_blob_of(literal, form),
        LiteralType::Enum(values) => is_text_among(literal, values),
        LiteralType::Union(variants) => is_union_of(literal, variants.as_slice()),
    }
}

/// The simple type of a scalar. None for a blob, a union, a collection and a map, which have no simple type.
pub fn simple_type(literal: &Literal) -> Option<Simple>
    ensures { result ≡ simple_type (out-Literal literal.now) }
{
    match literal {
        Literal::None => Some(Simple::None),
        Literal::Integer(_) => Some(Simple::Integer),
        Literal::Text(_) => Some(Simple::Text),
        Literal::Boolean(_) => Some(Simple::Boolean),
        Literal::Datetime { .. } => Some(Simple::Datetime),
        Literal::Duration { .. } => Some(Simple::Duration),
        Literal::Binary { .. } => Some(Simple::Binary),
        Literal::Error { .. } => Some(Simple::Error),
        Literal::Generic(_) => Some(Simple::Struct),
        Literal::Blob { .. } | Literal::Union { .. } | Literal::Collection(_) | Literal::Map(_) => {
            None
        }
    }
}

fn is_scalar_of(literal: &Literal, simple: Simple) -> bool
    ensures { IsTrue result ↔ (simple_type (out-Literal literal.now) ≡ Some simple) }
{
    match simple_type(literal) {
        Some(own) => own == simple,
        None => false,
    }
}

#[cycle(member)]
fn is_collection_of(literal: &Literal, element: &LiteralType) -> bool
    ensures { IsTrue result ↔ IsCollectionOf (IsMember element.now) (out-Literal literal.now) }
{
    match literal {
        Literal::Collection(elements) => are_members(elements.as_slice(), element),
        _ => false,
    }
}

#[cycle(member)]
fn are_members(literals: &[Literal], kind: &LiteralType) -> bool
    ensures { IsTrue result ↔ All (IsMember kind.now) literals.now }
{
    for literal in literals {
        if !is_member(literal, kind) {
            return false;
        }
    }
    true
}

#[cycle(member)]
fn is_map_of(literal: &Literal, value: &LiteralType) -> bool
    ensures { IsTrue result ↔ IsMapOf (IsMember value.now) (out-Literal literal.now) }
{
    match literal {
        Literal::Map(entries) => are_values_members(entries.as_slice(), value),
        _ => false,
    }
}

#[cycle(member)]
fn are_values_members(entries: &[(Text, Literal)], kind: &LiteralType) -> bool
    ensures { IsTrue result ↔ All (λ entry. IsMember kind.now entry.1) entries.now }
{
    for (_, value) in entries {
        if !is_member(value, kind) {
            return false;
        }
    }
    true
}

fn is_blob_of(literal: &Literal, form: &BlobType) -> bool
    ensures { IsTrue result ↔ IsBlobOf form.now (out-Literal literal.now) }
{
    match literal {
        Literal::Blob {
            uri: _,
            form: its_form,
        } => is_same_form(its_form, form),
        _ => false,
    }
}

fn is_text_among(literal: &Literal, values: &List<Text>) -> bool
    ensures { IsTrue result ↔ IsTextAmong values.now (out-Literal literal.now) }
{
    match literal {
        Literal::Text(text) => values.as_slice().contains(text),
        _ => false,
    }
}

#[cycle(member)]
fn is_union_of(literal: &Literal, variants: &[LiteralType]) -> bool
    ensures { IsTrue result ↔ IsUnionWhere (λ variant value. IsVariant variants.now variant value) (out-Literal literal.now) }
{
    match literal {
        Literal::Union { value, variant } => is_variant(value.get(), variant.get(), variants),
        _ => false,
    }
}

#[cycle(member)]
fn is_variant(value: &Literal, variant: &LiteralType, variants: &[LiteralType]) -> bool
    ensures { IsTrue result ↔ IsVariant variants.now variant.now value.now }
{
    for kind in variants {
        if variant.is_same(kind) && is_member(value, kind) {
            return true;
        }
    }
    false
}
