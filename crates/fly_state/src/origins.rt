//! What promises in the run's own workflow are of.
ghost use Rattle.std.specs.Prelude.{◌≡◌};
ghost use Rattle.std.specs.Option.{option_copied};
ghost use Rattle.std.specs.Str.{bytes_eq};
ghost use Rattle.fly_docs.specs.Bindings as bindings;
ghost use Rattle.fly_docs.specs.Names.{start_node};
ghost use Rattle.fly_docs.specs.Fitting.{source_fits};
ghost use Rattle.fly_docs.specs.Interfaces as interfaces;
ghost use Rattle.fly_docs.specs.NodeInterfaces.{source_in};
ghost use Rattle.fly_state.specs.Origins.{source_of_origin};

use fly_cast::is_castable;
use fly_docs::START_NODE;
use fly_types::{LiteralType, Text, Variable};

/// What a promise is of.
#[derive(Clone, Copy)]
pub(crate) enum Origin<'a> {
    /// An input of the workflow or an output of a node, of this type.
    Type(&'a LiteralType),
    /// An output of a node whose outputs are not known.
    Anything,
    NoNode,
    NoVariable,
}

impl<'a> Origin<'a> {
    /// Whether what is promised may go where a value of the type is wanted.
    pub(crate) fn fits(self, kind: &LiteralType) -> bool
        ensures { result ≡ source_fits kind.now (source_of_origin self.entry) }
    {
        match self {
            Origin::Type(own) => is_castable(own, kind),
            Origin::Anything => true,
            _ => false,
        }
    }
}

/// Whether the id of a promise names the start.
pub(crate) fn is_start(node: &Text) -> bool
    ensures { result ≡ bytes_eq (bindings.source_node node.now) start_node }
{
    if node.is_empty() {
        return true;
    }
    node.as_str() == START_NODE
}

/// What a promise of one of these variables is of.
pub(crate) fn variable_origin<'a>(variables: &'a [Variable], name: &Text) -> Origin<'a>
    ensures { source_of_origin result ≡ source_in name.now variables.now }
{
    match type_of(variables, name) {
        Some(kind) => Origin::Type(kind),
        None => Origin::NoVariable,
    }
}

/// The type of the variable of this name.
fn type_of<'a>(variables: &'a [Variable], name: &Text) -> Option<&'a LiteralType>
    ensures { option_copied result ≡ interfaces.type_of name.now variables.now }
{
    match variables.iter().find(|variable| variable.name == *name) {
        Some(variable) => Some(&variable.kind),
        None => None,
    }
}
