ghost use Rattle.std.specs.Prelude.{◌≡◌, IfOk};

use crate::{Identifier, Interface};
use fly_types::{List, NoMemory, Text, TryCopy};
use std::alloc::Global;

/// What a node runs: a command, with its interface and its settings, as flyteidl's `TaskTemplate`.
#[derive(Debug, PartialEq, Eq, Drop)]
pub struct Task {
    pub id: Identifier,
    /// Whether its outputs are cached, `discoverable` in flyteidl's `TaskMetadata`.
    pub cached: bool,
    /// Whether one execution at a time computes an output that is to be cached.
    pub serializable: bool,
    /// `discovery_version`, which tells caches of different versions apart.
    pub cache_version: Text,
    /// In milliseconds. 0 is none.
    pub timeout_ms: u64,
    /// How many attempts may follow the first, 10 at most.
    pub retries: u32,
    pub interface: Interface,
    pub command: List<Text>,
    pub args: List<Text>,
}

impl Task {
    pub fn copy(&self, alloc: Global) -> Result<Task, NoMemory>
        ensures { IfOk result (λ c. c ≡ self.now) }
    {
        Ok(Task {
            id: self.id.copy(alloc)?,
            cached: self.cached,
            serializable: self.serializable,
            cache_version: self.cache_version.copy(alloc)?,
            timeout_ms: self.timeout_ms,
            retries: self.retries,
            interface: self.interface.copy(alloc)?,
            command: self.command.copy(alloc)?,
            args: self.args.copy(alloc)?,
        })
    }
}

impl TryCopy for Task {
    fn copy(&self, alloc: Global) -> Result<Task, NoMemory> {
        Task::copy(self, alloc)
    }
}
