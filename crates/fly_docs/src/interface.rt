ghost use Rattle.std.specs.Prelude.{◌≡◌, IfOk};

use fly_types::{List, NoMemory, TryCopy, Variable};
use std::alloc::Global;

/// What a task or a workflow takes and gives, as flyteidl's `TypedInterface`. Each list is sorted by name.
#[derive(Debug, PartialEq, Eq, Drop)]
pub struct Interface {
    pub inputs: List<Variable>,
    pub outputs: List<Variable>,
}

impl Interface {
    pub fn copy(&self, alloc: Global) -> Result<Interface, NoMemory>
        ensures { IfOk result (λ c. c ≡ self.now) }
    {
        Ok(Interface {
            inputs: self.inputs.copy(alloc)?,
            outputs: self.outputs.copy(alloc)?,
        })
    }
}

impl TryCopy for Interface {
    fn copy(&self, alloc: Global) -> Result<Interface, NoMemory> {
        Interface::copy(self, alloc)
    }
}
