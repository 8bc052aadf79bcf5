ghost use Rattle.std.specs.Prelude.{◌≡◌, IfOk};

use crate::{Binding, Identifier, Interface, Node, Task};
use fly_types::{List, NoMemory, TryCopy};
use std::alloc::Global;

/// Nodes with an interface, as flyteidl's `WorkflowTemplate`.
#[derive(Debug, PartialEq, Eq, Drop)]
pub struct Workflow {
    pub id: Identifier,
    /// After a node fails, the nodes that can still run do: FAIL_AFTER_EXECUTABLE_NODES_COMPLETE in flyteidl.
    pub fail_late: bool,
    pub interface: Interface,
    pub nodes: List<Node>,
    pub outputs: List<Binding>,
}

/// What is registered and compiled together: tasks and workflows, and which workflow is run.
#[derive(Debug, PartialEq, Eq, Drop)]
pub struct Bundle {
    pub tasks: List<Task>,
    pub workflows: List<Workflow>,
    pub primary: Identifier,
}

impl Workflow {
    pub fn copy(&self, alloc: Global) -> Result<Workflow, NoMemory>
        ensures { IfOk result (λ c. c ≡ self.now) }
    {
        Ok(Workflow {
            id: self.id.copy(alloc)?,
            fail_late: self.fail_late,
            interface: self.interface.copy(alloc)?,
            nodes: self.nodes.copy(alloc)?,
            outputs: self.outputs.copy(alloc)?,
        })
    }
}

impl TryCopy for Workflow {
    fn copy(&self, alloc: Global) -> Result<Workflow, NoMemory> {
        Workflow::copy(self, alloc)
    }
}

impl Bundle {
    pub fn copy(&self, alloc: Global) -> Result<Bundle, NoMemory>
        ensures { IfOk result (λ c. c ≡ self.now) }
    {
        Ok(Bundle {
            tasks: self.tasks.copy(alloc)?,
            workflows: self.workflows.copy(alloc)?,
            primary: self.primary.copy(alloc)?,
        })
    }
}

impl TryCopy for Bundle {
    fn copy(&self, alloc: Global) -> Result<Bundle, NoMemory> {
        Bundle::copy(self, alloc)
    }
}
