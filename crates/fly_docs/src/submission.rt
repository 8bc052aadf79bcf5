ghost use Rattle.std.specs.Prelude.{◌≡◌, IfOk};

use fly_types::{LiteralMap, NoMemory, Text, TryCopy};
use std::alloc::Global;

/// One execution that is asked for: its name, and the inputs of the primary workflow.
#[derive(Debug, PartialEq, Eq, Drop)]
pub struct Submission {
    pub name: Text,
    pub inputs: LiteralMap,
}

impl Submission {
    pub fn copy(&self, alloc: Global) -> Result<Submission, NoMemory>
        ensures { IfOk result (λ c. c ≡ self.now) }
    {
        Ok(Submission {
            name: self.name.copy(alloc)?,
            inputs: self.inputs.copy(alloc)?,
        })
    }
}

impl TryCopy for Submission {
    fn copy(&self, alloc: Global) -> Result<Submission, NoMemory> {
        Submission::copy(self, alloc)
    }
}
