ghost use Rattle.std.specs.Prelude.{◌≡◌, ◌↔◌, IsTrue};

use crate::{BlobType, Literal, LiteralType, Said, Text, Tree, Variable};

pub(crate) fn is_same_form(one: &BlobType, other: &BlobType) -> bool
    ensures { IsTrue result ↔ (one.now ≡ other.now) }
{
    one.format == other.format && one.multipart == other.multipart
}

#[cycle(same_type)]
pub(crate) fn is_same_type(one: &LiteralType, other: &LiteralType) -> bool
    ensures { IsTrue result ↔ (one.now ≡ other.now) }
{
    match one {
        LiteralType::Simple(a) => match other {
            LiteralType::Simple(b) => a == b,
            _ => false,
        },
        LiteralType::Collection(a) => match other {
            LiteralType::Collection(b) => is_same_type(a.get(), b.get()),
            _ => false,
        },
        LiteralType::Map(a) => match other {
            LiteralType::Map(b) => is_same_type(a.get(), b.get()),
            _ => false,
        },
        LiteralType::Blob(a) => match other {
            LiteralType::Blob(b) => is_same_form(a, b),
            _ => false,
        },
        LiteralType::Enum(a) => match other {
            LiteralType::Enum(b) => a == b,
            _ => false,
        },
        LiteralType::Union(a) => match other {
            LiteralType::Union(b) => are_same_types(a.as_slice(), b.as_slice()),
            _ => false,
        },
    }
}

#[cycle(same_type)]
fn are_same_types(ones: &[LiteralType], others: &[LiteralType]) -> bool
    ensures { IsTrue result ↔ (ones.now ≡ others.now) }
{
    if ones.len() != others.len() {
        return false;
    }
    for (i, one) in ones.iter().enumerate() {
        if !is_same_type(one, &others[i]) {
            return false;
        }
    }
    true
}

#[cycle(same_tree)]
pub(crate) fn is_same_tree(one: &Tree, other: &Tree) -> bool
    ensures { IsTrue result ↔ (one.now ≡ other.now) }
{
    match one {
        Tree::Null => match other {
            Tree::Null => true,
            _ => false,
        },
        Tree::Bool(a) => match other {
            Tree::Bool(b) => a == b,
            _ => false,
        },
        Tree::Whole(a) => match other {
            Tree::Whole(b) => a == b,
            _ => false,
        },
        Tree::Text(a) => match other {
            Tree::Text(b) => a == b,
            _ => false,
        },
        Tree::List(a) => match other {
            Tree::List(b) => are_same_trees(a.as_slice(), b.as_slice()),
            _ => false,
        },
        Tree::Object(a) => match other {
            Tree::Object(b) => are_same_members(a.as_slice(), b.as_slice()),
            _ => false,
        },
    }
}

#[cycle(same_tree)]
fn are_same_trees(ones: &[Tree], others: &[Tree]) -> bool
    ensures { IsTrue result ↔ (ones.now ≡ others.now) }
{
    if ones.len() != others.len() {
        return false;
    }
    for (i, one) in ones.iter().enumerate() {
        if !is_same_tree(one, &others[i]) {
            return false;
        }
    }
    true
}

#[cycle(same_tree)]
fn are_same_members(ones: &[(Text, Tree)], others: &[(Text, Tree)]) -> bool
    ensures { IsTrue result ↔ (ones.now ≡ others.now) }
{
    if ones.len() != others.len() {
        return false;
    }
    for (i, (name, one)) in ones.iter().enumerate() {
        let (other_name, other) = &others[i];
        if name != other_name || !is_same_tree(one, other) {
            return false;
        }
    }
    true
}

#[cycle(same_literal)]
pub(crate) fn is_same_literal(one: &Literal, other: &Literal) -> bool
    ensures { IsTrue result ↔ (one.now ≡ other.now) }
{
    match one {
        Literal::None => matches!(other, Literal::None),
        Literal::Integer(a) => matches!(other, Literal::Integer(b) if a == b),
        Literal::Text(a) => matches!(other, Literal::Text(b) if a == b),
        Literal::Boolean(a) => matches!(other, Literal::Boolean(b) if a == b),
        Literal::Datetime {
            seconds: s,
            nanos: n,
        } => { matches!(other, Literal::Datetime { seconds, nanos } if s == seconds && n == nanos) }
        Literal::Duration {
            seconds: s,
            nanos: n,
        } => { matches!(other, Literal::Duration { seconds, nanos } if s == seconds && n == nanos) }
        Literal::Blob { uri: u, form: f } => {
            matches!(other, Literal::Blob { uri, form } if u == uri && is_same_form(f, form))
        }
        Literal::Binary { value: v, tag: t } => {
            matches!(other, Literal::Binary { value, tag } if v == value && t == tag)
        }
        Literal::Error {
            node: n,
            message: m,
        } => { matches!(other, Literal::Error { node, message } if n == node && m == message) }
        Literal::Generic(a) => match other {
            Literal::Generic(b) => is_same_tree(a, b),
            _ => false,
        },
        Literal::Union {
            value: a,
            variant: t,
        } => match other {
            Literal::Union { value: b, variant } => {
                is_same_type(t.get(), variant.get()) && is_same_literal(a.get(), b.get())
            }
            _ => false,
        },
        Literal::Collection(a) => match other {
            Literal::Collection(b) => are_same_literals(a.as_slice(), b.as_slice()),
            _ => false,
        },
        Literal::Map(a) => match other {
            Literal::Map(b) => are_same_entries(a.as_slice(), b.as_slice()),
            _ => false,
        },
    }
}

#[cycle(same_literal)]
fn are_same_literals(ones: &[Literal], others: &[Literal]) -> bool
    ensures { IsTrue result ↔ (ones.now ≡ others.now) }
{
    if ones.len() != others.len() {
        return false;
    }
    for (i, one) in ones.iter().enumerate() {
        if !is_same_literal(one, &others[i]) {
            return false;
        }
    }
    true
}

#[cycle(same_literal)]
pub(crate) fn are_same_entries(ones: &[(Text, Literal)], others: &[(Text, Literal)]) -> bool
    ensures { IsTrue result ↔ (ones.now ≡ others.now) }
{
    if ones.len() != others.len() {
        return false;
    }
    for (i, (name, one)) in ones.iter().enumerate() {
        let (other_name, other) = &others[i];
        if name != other_name || !is_same_literal(one, other) {
            return false;
        }
    }
    true
}

pub(crate) fn is_same_variable(one: &Variable, other: &Variable) -> bool
    ensures { IsTrue result ↔ (one.now ≡ other.now) }
{
    one.name == other.name && is_same_type(&one.kind, &other.kind)
}

pub(crate) fn is_same_said(one: &Said, other: &Said) -> bool
    ensures { IsTrue result ↔ (one.now ≡ other.now) }
{
    match one {
        Said::Outputs(a) => match other {
            Said::Outputs(b) => a.is_same(b),
            _ => false,
        },
        Said::Error {
            code: c,
            message: m,
            recoverable: r,
        } => {
            matches!(other, Said::Error { code, message, recoverable } if c == code && m == message && r == recoverable)
        }
        Said::TooLarge => matches!(other, Said::TooLarge),
        Said::Neither => matches!(other, Said::Neither),
    }
}
