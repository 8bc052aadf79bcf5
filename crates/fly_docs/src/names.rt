ghost use Rattle.std.specs.Prelude.{◌≡◌, IfOk};

use fly_types::{NoMemory, Text, TryCopy};
use std::alloc::Global;

/// The node id by which a promise names an input of the workflow.
pub const START_NODE: &str = "start-node";

/// The node id that stands for the outputs of the workflow.
pub const END_NODE: &str = "end-node";

/// What names a task or a workflow, as flyteidl's `Identifier`. The resource type goes by its place.
#[derive(Debug, PartialEq, Eq, Drop)]
pub struct Identifier {
    pub project: Text,
    pub domain: Text,
    pub name: Text,
    pub version: Text,
}

impl Identifier {
    pub fn copy(&self, alloc: Global) -> Result<Identifier, NoMemory>
        ensures { IfOk result (λ i. i ≡ self.now) }
    {
        Ok(Identifier {
            project: self.project.copy(alloc)?,
            domain: self.domain.copy(alloc)?,
            name: self.name.copy(alloc)?,
            version: self.version.copy(alloc)?,
        })
    }
}

impl TryCopy for Identifier {
    fn copy(&self, alloc: Global) -> Result<Identifier, NoMemory> {
        Identifier::copy(self, alloc)
    }
}
