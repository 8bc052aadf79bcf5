ghost use Rattle.std.specs.Prelude.{◌≡◌, IfOk};

use crate::Phase;
use fly_types::{List, LiteralMap, NoMemory, Text, TryCopy};
use std::alloc::Global;

/// The root, a node or an item of an array in one version of an execution.
#[derive(Debug, PartialEq, Eq, Drop)]
pub struct SlotState {
    pub phase: Phase,
    /// The number of the attempt, from 0.
    pub attempt: u32,
    /// The case that a branch chose, from 0; its else node has the number behind the last case.
    pub choice: Option<u32>,
    pub inputs: Option<LiteralMap>,
    pub outputs: Option<LiteralMap>,
    /// Why the slot failed.
    pub code: Option<Text>,
}

/// A node, and its items where it is an array that has run.
#[derive(Debug, PartialEq, Eq, Drop)]
pub struct NodeState {
    pub own: SlotState,
    pub items: List<SlotState>,
}

/// One version of an execution.
#[derive(Debug, PartialEq, Eq, Drop)]
pub struct ExecState {
    pub root: SlotState,
    /// In the order of the plan.
    pub nodes: List<NodeState>,
}

impl SlotState {
    pub fn copy(&self, alloc: Global) -> Result<SlotState, NoMemory>
        ensures { IfOk result (λ c. c ≡ self.now) }
    {
        Ok(SlotState {
            phase: self.phase,
            attempt: self.attempt,
            choice: self.choice,
            inputs: self.inputs.copy(alloc)?,
            outputs: self.outputs.copy(alloc)?,
            code: self.code.copy(alloc)?,
        })
    }
}

impl TryCopy for SlotState {
    fn copy(&self, alloc: Global) -> Result<SlotState, NoMemory> {
        SlotState::copy(self, alloc)
    }
}

impl NodeState {
    pub fn copy(&self, alloc: Global) -> Result<NodeState, NoMemory>
        ensures { IfOk result (λ c. c ≡ self.now) }
    {
        Ok(NodeState {
            own: self.own.copy(alloc)?,
            items: self.items.copy(alloc)?,
        })
    }
}

impl TryCopy for NodeState {
    fn copy(&self, alloc: Global) -> Result<NodeState, NoMemory> {
        NodeState::copy(self, alloc)
    }
}

impl ExecState {
    pub fn copy(&self, alloc: Global) -> Result<ExecState, NoMemory>
        ensures { IfOk result (λ c. c ≡ self.now) }
    {
        Ok(ExecState {
            root: self.root.copy(alloc)?,
            nodes: self.nodes.copy(alloc)?,
        })
    }
}

impl TryCopy for ExecState {
    fn copy(&self, alloc: Global) -> Result<ExecState, NoMemory> {
        ExecState::copy(self, alloc)
    }
}
