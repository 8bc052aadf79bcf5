//! The promises in what is bound.
ghost use Rattle.std.specs.Prelude.{◌≡◌, ◌++◌, [], ◌∷◌, map, flat_map, IfOk, OnOk};
ghost use Rattle.fly_docs.specs.Bindings as bindings;
ghost use Rattle.fly_compile.specs.Scopes.{source_there};
ghost use Rattle.fly_compile.specs.Promises.{known, with_sources};

use crate::sources::Sources;
use fly_docs::{Bound, START_NODE};
use fly_faults::Origin;
use fly_types::{NoMemory, Text};
use std::alloc::Global;

/// A promise in what is bound, with what it is of.
#[derive(Clone, Copy)]
pub(crate) struct Promise<'a> {
    /// The id of the node, `start-node` where the document leaves it out.
    pub node: &'a str,
    pub var: &'a Text,
    pub origin: Origin<'a>,
}

/// The node that an id names in a promise.
pub(crate) fn source_node(node: &Text) -> &str
    ensures { result.now ≡ bindings.source_node node.now }
{
    if node.is_empty() {
        START_NODE
    } else {
        node.as_str()
    }
}

/// The promises in what is bound, in their order.
pub(crate) fn promises_of<'a>(
    alloc: Global,
    sources: &Sources<'_, 'a>,
    x: &'a Bound,
) -> Result<Vec<Promise<'a>>, NoMemory>
    ensures { IfOk result (λ promises. map known promises.items ≡ with_sources (source_there sources.now) (bindings.promises_of x.now)) }
{
    let mut promises = Vec::new(alloc);
    push_promises(&mut promises, sources, x)?;
    Ok(promises)
}

#[cycle(push_promises)]
fn push_promises<'a>(
    promises: &mut Vec<Promise<'a>>,
    sources: &Sources<'_, 'a>,
    x: &'a Bound,
) -> Result<(), NoMemory>
    ensures { OnOk result (map known promises.new.items
        ≡ map known promises.old.items ++ with_sources (source_there sources.now) (bindings.promises_of x.now)) }
{
    match x {
        Bound::Scalar(_) => Ok(()),
        Bound::Collection(elements) => push_elements(promises, sources, elements.as_slice()),
        Bound::Map(entries) => push_entries(promises, sources, entries.as_slice()),
        Bound::Promise { node, var } => push_promise(promises, sources, node, var),
    }
}

fn push_promise<'a>(
    promises: &mut Vec<Promise<'a>>,
    sources: &Sources<'_, 'a>,
    node: &'a Text,
    var: &'a Text,
) -> Result<(), NoMemory>
    ensures { OnOk result (map known promises.new.items
        ≡ map known promises.old.items ++ with_sources (source_there sources.now) ((bindings.source_node node.now, var.now) ∷ [])) }
{
    let origin = sources.find(node, var);
    promises.push(Promise {
        node: source_node(node),
        var,
        origin,
    })?;
    Ok(())
}

#[cycle(push_promises)]
fn push_elements<'a>(
    promises: &mut Vec<Promise<'a>>,
    sources: &Sources<'_, 'a>,
    elements: &'a [Bound],
) -> Result<(), NoMemory>
    ensures { OnOk result (map known promises.new.items
        ≡ map known promises.old.items ++ flat_map (λ e. with_sources (source_there sources.now) (bindings.promises_of e)) elements.now) }
{
    for element in elements {
        push_promises(promises, sources, element)?;
    }
    Ok(())
}

#[cycle(push_promises)]
fn push_entries<'a>(
    promises: &mut Vec<Promise<'a>>,
    sources: &Sources<'_, 'a>,
    entries: &'a [(Text, Bound)],
) -> Result<(), NoMemory>
    ensures { OnOk result (map known promises.new.items
        ≡ map known promises.old.items ++ flat_map (λ e. with_sources (source_there sources.now) (bindings.promises_of e.1)) entries.now) }
{
    for (_, value) in entries {
        push_promises(promises, sources, value)?;
    }
    Ok(())
}
