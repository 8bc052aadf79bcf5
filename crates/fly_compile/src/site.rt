//! Where bindings stand, and what may be bound there.
ghost use Rattle.std.specs.Prelude.{◌≡◌, IfOk, option_map, option_and_then, is_none};
ghost use Rattle.fly_types.specs.Lookup.{AreVariablesSorted};
ghost use Rattle.fly_faults.specs.BindingFaults as faults;
ghost use Rattle.fly_compile.specs.Sites.{wanted_value, wanted_by_name, HasSortedNames, input_variables};

use crate::sources::Sources;
use fly_faults::text_of_type;
use fly_types::{List, LiteralType, NoMemory, Text, Variable, find_variable};
use std::alloc::Global;

/// What the inputs of a node want, or the outputs of a workflow.
#[derive(Clone, Copy)]
pub(crate) enum Inputs<'a> {
    /// What the node runs is not in the bundle.
    Unknown,
    /// Each a value of its type.
    Values(&'a List<Variable>),
    /// Each a list of values of its type, one for each item, or one of these for all items.
    Lists(&'a List<Variable>),
    /// Inputs of any name, each a primitive.
    Primitives,
}

/// What may be bound to an input.
#[derive(Clone, Copy)]
pub(crate) enum Wanted<'a> {
    Value(&'a LiteralType),
    Items(&'a LiteralType),
    Primitive,
}

/// Where bindings stand.
#[derive(Drop)]
pub(crate) struct Site<'s, 'd, 'a> {
    /// The place of the node or of the outputs.
    pub place: Text,
    pub sources: &'s Sources<'d, 'a>,
    pub inputs: Inputs<'a>,
}

impl<'a> Inputs<'a> {
    /// What the input of this name wants. None where there is no such input, and where the inputs are unknown.
    pub(crate) fn find(self, name: &Text) -> Option<Wanted<'a>>
        requires { HasSortedNames self }
        ensures { option_map wanted_value result ≡ option_and_then (λ wanted. wanted name.now) (wanted_by_name self.entry) }
    {
        match self {
            Inputs::Unknown => None,
            Inputs::Values(variables) => match find_variable(variables, name) {
                Some(variable) => Some(Wanted::Value(&variable.kind)),
                None => None,
            },
            Inputs::Lists(variables) => match find_variable(variables, name) {
                Some(variable) => Some(Wanted::Items(&variable.kind)),
                None => None,
            },
            Inputs::Primitives => Some(Wanted::Primitive),
        }
    }

    pub(crate) fn is_unknown(self) -> bool
        ensures wanted { result ≡ is_none (wanted_by_name self.entry) }
        ensures variables { result ≡ is_none (input_variables self.entry) }
    {
        matches!(self, Inputs::Unknown)
    }
}

impl<'a> Wanted<'a> {
    /// The text of the type, or the word `primitive`.
    pub(crate) fn text(self, alloc: Global) -> Result<Text, NoMemory>
        ensures { IfOk result (λ t. t ≡ faults.wanted_text (wanted_value self.entry)) }
    {
        match self {
            Wanted::Value(kind) | Wanted::Items(kind) => text_of_type(alloc, kind),
            Wanted::Primitive => Text::from_str(alloc, "primitive"),
        }
    }
}
