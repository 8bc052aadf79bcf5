ghost use Rattle.std.specs.Prelude.{◌≡◌, IfOk};

use fly_types::{List, Literal, NoMemory, Text, TryCopy};
use std::alloc::Global;

/// Where the value of an input or an output comes from, as flyteidl's `BindingData`.
#[derive(Debug, PartialEq, Eq, Drop)]
pub enum Bound {
    /// A value that is written in the document, of no collection and no map: these have variants of their own.
    Scalar(Literal),
    /// A list, with a source for each element, as flyteidl's `BindingDataCollection`.
    Collection(List<Bound>),
    /// A map, with a source for each value, as flyteidl's `BindingDataMap`. Sorted by name.
    Map(List<(Text, Bound)>),
    /// An output of a node, or under `start-node` an input of the workflow, as flyteidl's `OutputReference`.
    Promise { node: Text, var: Text },
}

/// The value of one variable, as flyteidl's `Binding`.
#[derive(Debug, PartialEq, Eq, Drop)]
pub struct Binding {
    pub var: Text,
    pub bound: Bound,
}

impl Bound {
    #[cycle(copy_bound)]
    pub fn copy(&self, alloc: Global) -> Result<Bound, NoMemory>
        ensures { IfOk result (λ c. c ≡ self.now) }
    {
        match self {
            Bound::Scalar(literal) => Ok(Bound::Scalar(literal.copy(alloc)?)),
            Bound::Collection(elements) => {
                let copied = copy_bounds(alloc, elements.as_slice())?;
                Ok(Bound::Collection(List::from_vec(copied)))
            }
            Bound::Map(entries) => {
                let copied = copy_entries(alloc, entries.as_slice())?;
                Ok(Bound::Map(List::from_vec(copied)))
            }
            Bound::Promise { node, var } => Ok(Bound::Promise {
                node: node.copy(alloc)?,
                var: var.copy(alloc)?,
            }),
        }
    }
}

#[cycle(copy_bound)]
fn copy_bounds(alloc: Global, bounds: &[Bound]) -> Result<Vec<Bound>, NoMemory>
    ensures { IfOk result (λ c. c.items ≡ bounds.now) }
{
    let mut copied = Vec::with_capacity(alloc, bounds.len())?;
    for bound in bounds {
        copied.push(bound.copy(alloc)?)?;
    }
    Ok(copied)
}

#[cycle(copy_bound)]
fn copy_entries(alloc: Global, entries: &[(Text, Bound)]) -> Result<Vec<(Text, Bound)>, NoMemory>
    ensures { IfOk result (λ c. c.items ≡ entries.now) }
{
    let mut copied = Vec::with_capacity(alloc, entries.len())?;
    for (name, bound) in entries {
        let name = name.copy(alloc)?;
        copied.push((name, bound.copy(alloc)?))?;
    }
    Ok(copied)
}

impl TryCopy for Bound {
    fn copy(&self, alloc: Global) -> Result<Bound, NoMemory> {
        Bound::copy(self, alloc)
    }
}

impl Binding {
    pub fn copy(&self, alloc: Global) -> Result<Binding, NoMemory>
        ensures { IfOk result (λ c. c ≡ self.now) }
    {
        Ok(Binding {
            var: self.var.copy(alloc)?,
            bound: self.bound.copy(alloc)?,
        })
    }
}

impl TryCopy for Binding {
    fn copy(&self, alloc: Global) -> Result<Binding, NoMemory> {
        Binding::copy(self, alloc)
    }
}
