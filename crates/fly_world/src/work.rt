ghost use Rattle.std.specs.Prelude.{◌≡◌, IfOk};

use fly_docs::AttemptName;
use fly_types::{List, LiteralMap, NoMemory, Text, TryCopy, Variable};
use std::alloc::Global;

/// An attempt that is to be run.
#[derive(Debug, PartialEq, Eq, Drop)]
pub struct Work {
    pub name: AttemptName,
    /// The program and its arguments.
    pub words: List<Text>,
    pub inputs: LiteralMap,
    /// The outputs that are wanted.
    pub outputs: List<Variable>,
}

impl Work {
    pub fn copy(&self, alloc: Global) -> Result<Work, NoMemory>
        ensures { IfOk result (λ c. c ≡ self.now) }
    {
        Ok(Work {
            name: self.name.copy(alloc)?,
            words: self.words.copy(alloc)?,
            inputs: self.inputs.copy(alloc)?,
            outputs: self.outputs.copy(alloc)?,
        })
    }
}

impl TryCopy for Work {
    fn copy(&self, alloc: Global) -> Result<Work, NoMemory> {
        Work::copy(self, alloc)
    }
}
