ghost use Rattle.std.specs.Prelude.{◌≡◌, ◌≤◌, length, IfOk};
ghost use Rattle.std.specs.List.{All};
ghost use Rattle.fly_docs.specs.Names.{IsId};

use fly_types::{List, NoMemory, Text, TryCopy};
use std::alloc::Global;

/// What names one attempt of a node, or of an item of an array node, in one execution. The names and their texts are
/// this project's own.
#[derive(Debug, PartialEq, Eq, Drop)]
pub struct AttemptName {
    /// The name of the execution.
    pub exec: Text,
    /// The ids of the workflow nodes around the node, the outermost first, and then its own.
    pub path: List<Text>,
    /// The item's number, from 0.
    pub item: Option<u32>,
    /// The attempt's number, from 0.
    pub attempt: u32,
    pub ghost exec_is_id: { IsId exec },
    pub ghost path_of_ids: { All IsId path },
    pub ghost path_is_some: { 1 ≤ length path },
}

impl AttemptName {
    pub fn copy(&self, alloc: Global) -> Result<AttemptName, NoMemory>
        ensures { IfOk result (λ c. c ≡ self.now) }
    {
        Ok(AttemptName {
            exec: self.exec.copy(alloc)?,
            path: self.path.copy(alloc)?,
            item: self.item,
            attempt: self.attempt,
        })
    }
}

impl TryCopy for AttemptName {
    fn copy(&self, alloc: Global) -> Result<AttemptName, NoMemory> {
        AttemptName::copy(self, alloc)
    }
}
