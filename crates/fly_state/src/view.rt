ghost use Rattle.std.specs.Prelude.{◌≡◌, IfOk};

use crate::ExecState;
use fly_docs::AttemptName;
use fly_policy::Outcome;
use fly_types::{List, NoMemory, Text, TryCopy};
use std::alloc::Global;

/// An attempt that was launched.
#[derive(Debug, PartialEq, Eq, Drop)]
pub struct Known {
    pub name: AttemptName,
    pub claimed: bool,
    pub outcome: Option<Outcome>,
}

/// One version of an execution as a worker reads it, with the launches that stood while it was current.
#[derive(Debug, PartialEq, Eq, Drop)]
pub struct View {
    /// The number of the execution.
    pub exec: u32,
    /// Its name.
    pub name: Text,
    pub version: u64,
    /// The version that was current at the read.
    pub current: u64,
    pub state: ExecState,
    pub launches: List<Known>,
}

impl Known {
    pub fn copy(&self, alloc: Global) -> Result<Known, NoMemory>
        ensures { IfOk result (λ c. c ≡ self.now) }
    {
        Ok(Known {
            name: self.name.copy(alloc)?,
            claimed: self.claimed,
            outcome: self.outcome.copy(alloc)?,
        })
    }
}

impl TryCopy for Known {
    fn copy(&self, alloc: Global) -> Result<Known, NoMemory> {
        Known::copy(self, alloc)
    }
}

impl View {
    pub fn copy(&self, alloc: Global) -> Result<View, NoMemory>
        ensures { IfOk result (λ c. c ≡ self.now) }
    {
        Ok(View {
            exec: self.exec,
            name: self.name.copy(alloc)?,
            version: self.version,
            current: self.current,
            state: self.state.copy(alloc)?,
            launches: self.launches.copy(alloc)?,
        })
    }
}

impl TryCopy for View {
    fn copy(&self, alloc: Global) -> Result<View, NoMemory> {
        View::copy(self, alloc)
    }
}
