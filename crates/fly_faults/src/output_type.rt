//! The types of what nodes give, and what promises are of.
ghost use Rattle.std.specs.Prelude.{◌≡◌, ◌↔◌, ◌++◌, Some, None, filter, is_some, codes, IfOk, OnOk, IsTrue, string_bytes};
ghost use Rattle.std.specs.Option.{option_copied};
ghost use Rattle.fly_types.specs.declared.kinds.LiteralType.TheVariants as types;
ghost use Rattle.fly_types.specs.declared.kinds.Simple.TheVariants as simple;
ghost use Rattle.fly_types.specs.declared.kinds.LiteralType.{out-LiteralType};
ghost use Rattle.fly_cast.specs.Castable as casts;
ghost use Rattle.fly_cast.specs.Castable.{sole_element};
ghost use Rattle.fly_docs.specs.Conditions as conditions;
ghost use Rattle.fly_docs.specs.Fitting.{source_fits};
ghost use Rattle.fly_faults.specs.BindingFaults as faults;
ghost use Rattle.fly_faults.specs.TypeText as texts;
ghost use Rattle.fly_faults.specs.OutputTypes.{optional, item_type, type_of_output, source_of_origin};

use crate::type_text::{push, push_type};
use fly_cast::is_castable;
use fly_types::{LiteralType, NoMemory, Simple, Text};
use std::alloc::Global;

/// The type of an output of a node. That of an array is a list, which is not built.
#[derive(Clone, Copy)]
pub enum OutputType<'a> {
    /// This type.
    Plain(&'a LiteralType),
    /// A list of values of this type, or where an item may lack one, of this type or of NONE.
    Items(&'a LiteralType, bool),
}

/// What a promise is of.
#[derive(Clone, Copy)]
pub enum Origin<'a> {
    /// An input of the workflow or an output of a node.
    Output(OutputType<'a>),
    /// An output of a node whose outputs are not known, since what it runs is not in the bundle.
    Anything,
    NoNode,
    NoVariable,
}

impl<'a> OutputType<'a> {
    /// Whether the two are one type.
    pub fn is_same(self, other: OutputType<'a>) -> bool
        ensures { IsTrue result ↔ (type_of_output self.entry ≡ type_of_output other.entry) }
    {
        match self {
            OutputType::Plain(own) => other.is_type(own),
            OutputType::Items(element, may_lack) => other.is_list_of(element, may_lack),
        }
    }

    fn is_type(self, kind: &LiteralType) -> bool
        ensures { IsTrue result ↔ (kind.now ≡ type_of_output self.entry) }
    {
        match self {
            OutputType::Plain(own) => kind.is_same(own),
            OutputType::Items(element, may_lack) => is_list_type(kind, element, may_lack),
        }
    }

    fn is_list_of(self, element: &LiteralType, may_lack: bool) -> bool
        ensures { IsTrue result ↔ (types.Collection (item_type may_lack element.now) ≡ type_of_output self.entry) }
    {
        match self {
            OutputType::Plain(own) => is_type_of_list(element, may_lack, own),
            OutputType::Items(its, its_may_lack) => {
                is_same_list(element, may_lack, its, its_may_lack)
            }
        }
    }

    /// Whether a value of the one type may go where one of the other is wanted.
    pub fn casts_to(self, kind: &LiteralType) -> bool
        ensures { result ≡ casts.is_castable (type_of_output self.entry) kind.now }
    {
        match self {
            OutputType::Plain(own) => is_castable(own, kind),
            OutputType::Items(element, may_lack) => do_items_cast(element, may_lack, kind),
        }
    }

    /// The primitive type of its values.
    pub fn primitive(self) -> Option<Simple>
        ensures { result ≡ conditions.primitive_of (type_of_output self.entry) }
    {
        match self {
            OutputType::Plain(own) => primitive_of(own),
            OutputType::Items(_, _) => None,
        }
    }

    /// The text of the type.
    pub fn text(self, alloc: Global) -> Result<Text, NoMemory>
        ensures { IfOk result (λ t. t ≡ texts.text_of_type (type_of_output self.entry)) }
    {
        let mut out = String::new(alloc);
        match self {
            OutputType::Plain(own) => push_type(alloc, &mut out, own)?,
            OutputType::Items(element, false) => push_items(alloc, &mut out, element)?,
            OutputType::Items(element, true) => push_some_items(alloc, &mut out, element)?,
        }
        Ok(Text::from_string(out))
    }
}

/// Whether the type is a list of such items.
fn is_list_type(kind: &LiteralType, element: &LiteralType, may_lack: bool) -> bool
    ensures { IsTrue result ↔ (kind.now ≡ types.Collection (item_type may_lack element.now)) }
{
    match kind {
        LiteralType::Collection(its) => is_item_type(its.get(), element, may_lack),
        _ => false,
    }
}

fn is_type_of_list(element: &LiteralType, may_lack: bool, kind: &LiteralType) -> bool
    ensures { IsTrue result ↔ (types.Collection (item_type may_lack element.now) ≡ kind.now) }
{
    is_list_type(kind, element, may_lack)
}

fn is_item_type(kind: &LiteralType, element: &LiteralType, may_lack: bool) -> bool
    ensures { IsTrue result ↔ (kind.now ≡ item_type may_lack element.now) }
{
    if may_lack {
        is_optional(kind, element)
    } else {
        kind.is_same(element)
    }
}

/// Whether the two are lists of the same items.
fn is_same_list(
    element: &LiteralType,
    may_lack: bool,
    its: &LiteralType,
    its_may_lack: bool,
) -> bool
    ensures { IsTrue result ↔ (types.Collection (item_type may_lack element.now) ≡ types.Collection (item_type its_may_lack its.now)) }
{
    if may_lack {
        if its_may_lack {
            element.is_same(its)
        } else {
            is_optional(its, element)
        }
    } else {
        is_item_type(element, its, its_may_lack)
    }
}

/// Whether the type is a union of the other and NONE.
fn is_optional(kind: &LiteralType, of: &LiteralType) -> bool
    ensures { IsTrue result ↔ (kind.now ≡ optional of.now) }
{
    match kind {
        LiteralType::Union(variants) => are_optional(variants.as_slice(), of),
        _ => false,
    }
}

fn are_optional(variants: &[LiteralType], of: &LiteralType) -> bool
    ensures { IsTrue result ↔ (types.Union variants.now ≡ optional of.now) }
{
    match variants {
        [first, second] => first.is_same(of) && is_none(second),
        _ => false,
    }
}

fn is_none(kind: &LiteralType) -> bool
    ensures { IsTrue result ↔ (kind.now ≡ types.Simple simple.None) }
{
    match kind {
        LiteralType::Simple(Simple::None) => true,
        _ => false,
    }
}

/// Whether a list of such items may go where a value of the type is wanted.
#[cycle(items_cast)]
fn do_items_cast(element: &LiteralType, may_lack: bool, kind: &LiteralType) -> bool
    ensures { result ≡ casts.is_castable (types.Collection (item_type may_lack element.now)) kind.now }
{
    match kind {
        LiteralType::Collection(to) => does_item_cast(element, may_lack, to.get()),
        LiteralType::Union(variants) => only_taker(
            element,
            may_lack,
            variants.as_slice(),
        ).is_some(),
        _ => false,
    }
}

/// The one type that takes a list of such items. None where there are two, or none.
#[cycle(items_cast)]
fn only_taker<'b>(
    element: &LiteralType,
    may_lack: bool,
    variants: &'b [LiteralType],
) -> Option<&'b LiteralType>
    ensures { option_copied result ≡ sole_element (filter (casts.is_castable (types.Collection (item_type may_lack element.now))) variants.now) }
{
    let mut taker = None;
    for variant in variants {
        if do_items_cast(element, may_lack, variant) {
            if taker.is_some() {
                return None;
            }
            taker = Some(variant);
        }
    }
    taker
}

fn does_item_cast(element: &LiteralType, may_lack: bool, to: &LiteralType) -> bool
    ensures { result ≡ casts.is_castable (item_type may_lack element.now) to.now }
{
    if may_lack {
        does_optional_cast(element, to)
    } else {
        is_castable(element, to)
    }
}

/// Whether a value of the type or of NONE may go where one of the other type is wanted.
fn does_optional_cast(element: &LiteralType, to: &LiteralType) -> bool
    ensures { result ≡ casts.is_castable (optional element.now) to.now }
{
    if is_optional(to, element) {
        return true;
    }
    if !is_castable(element, to) {
        return false;
    }
    is_castable(&LiteralType::Simple(Simple::None), to)
}

/// The primitive type of values of a type: those of an enum are texts.
fn primitive_of(kind: &LiteralType) -> Option<Simple>
    ensures { result ≡ conditions.primitive_in (out-LiteralType kind.now) }
{
    match kind {
        LiteralType::Simple(simple) => if_primitive(*simple),
        LiteralType::Enum(_) => Some(Simple::Text),
        _ => None,
    }
}

/// The type itself, where it is primitive.
pub fn if_primitive(simple: Simple) -> Option<Simple>
    ensures { result ≡ conditions.if_primitive simple }
{
    match simple {
        Simple::Integer | Simple::Text | Simple::Boolean | Simple::Datetime | Simple::Duration =>
            Some(simple),
        _ => None,
    }
}

fn push_items(alloc: Global, out: &mut String, element: &LiteralType) -> Result<(), NoMemory>
    ensures { OnOk result (string_bytes out.new ≡ string_bytes out.old ++ texts.text_of_type (types.Collection element.now)) }
{
    push(out, "[")?;
    push_type(alloc, out, element)?;
    push(out, "]")
}

fn push_some_items(alloc: Global, out: &mut String, element: &LiteralType) -> Result<(), NoMemory>
    ensures { OnOk result (string_bytes out.new ≡ string_bytes out.old ++ texts.text_of_type (types.Collection (optional element.now))) }
{
    push(out, "[union(")?;
    push_type(alloc, out, element)?;
    push(out, ",NONE)]")
}

impl<'a> Origin<'a> {
    /// Whether such a promise may go where a value of the type is wanted.
    pub fn fits(self, kind: &LiteralType) -> bool
        ensures { result ≡ source_fits kind.now (source_of_origin self.entry) }
    {
        match self {
            Origin::Output(own) => own.casts_to(kind),
            Origin::Anything => true,
            Origin::NoNode | Origin::NoVariable => false,
        }
    }

    /// The primitive type of its values, where it is known.
    pub fn primitive(self) -> Option<Simple>
        ensures { result ≡ conditions.source_primitive (source_of_origin self.entry) }
    {
        match self {
            Origin::Output(own) => own.primitive(),
            _ => None,
        }
    }

    /// The text of its type, else the word `value`.
    pub fn text(self, alloc: Global) -> Result<Text, NoMemory>
        ensures { IfOk result (λ t. t ≡ faults.source_text (source_of_origin self.entry)) }
    {
        match self {
            Origin::Output(own) => own.text(alloc),
            _ => Text::from_str(alloc, "value"),
        }
    }

    /// Whether the promise names no node.
    pub fn is_no_node(self) -> bool
        ensures { result ≡ faults.is_no_node (source_of_origin self.entry) }
    {
        matches!(self, Origin::NoNode)
    }

    /// Whether the promise's node has no such output.
    pub fn is_no_variable(self) -> bool
        ensures { result ≡ faults.is_no_variable (source_of_origin self.entry) }
    {
        matches!(self, Origin::NoVariable)
    }

    /// Whether what the promise is of is not known, so that it fits everything.
    pub fn is_anything(self) -> bool
        ensures { result ≡ faults.is_anything (source_of_origin self.entry) }
    {
        matches!(self, Origin::Anything)
    }
}
