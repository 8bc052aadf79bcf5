ghost use Rattle.std.specs.Prelude.{◌≡◌, IfOk};

use crate::{Task, Workflow};
use fly_types::{List, NoMemory, Text, TryCopy};
use std::alloc::Global;

/// The ids before and behind each node, by node id, sorted by its bytes. The message is flyteidl's
/// `ConnectionSet`; which ids it holds is this project's own.
#[derive(Debug, PartialEq, Eq, Drop)]
pub struct Connections {
    pub upstream: List<(Text, List<Text>)>,
    pub downstream: List<(Text, List<Text>)>,
}

/// A compiled workflow with all that it reaches, as flyteidl's `CompiledWorkflowClosure`.
#[derive(Debug, PartialEq, Eq, Drop)]
pub struct Closure {
    pub primary: Workflow,
    pub subs: List<Workflow>,
    pub tasks: List<Task>,
    /// Those of the primary, and then those of each of `subs`.
    pub connections: List<Connections>,
}

impl Connections {
    pub fn copy(&self, alloc: Global) -> Result<Connections, NoMemory>
        ensures { IfOk result (λ c. c ≡ self.now) }
    {
        Ok(Connections {
            upstream: self.upstream.copy(alloc)?,
            downstream: self.downstream.copy(alloc)?,
        })
    }
}

impl TryCopy for Connections {
    fn copy(&self, alloc: Global) -> Result<Connections, NoMemory> {
        Connections::copy(self, alloc)
    }
}

impl Closure {
    pub fn copy(&self, alloc: Global) -> Result<Closure, NoMemory>
        ensures { IfOk result (λ c. c ≡ self.now) }
    {
        Ok(Closure {
            primary: self.primary.copy(alloc)?,
            subs: self.subs.copy(alloc)?,
            tasks: self.tasks.copy(alloc)?,
            connections: self.connections.copy(alloc)?,
        })
    }
}
