ghost use Rattle.std.specs.Prelude.{◌≡◌, IfOk};

use crate::Work;
use fly_state::{Reply, View};
use fly_types::{NoMemory, TryCopy};
use std::alloc::Global;

/// What a call of the store gave.
#[derive(Debug, PartialEq, Eq, Drop)]
pub struct Called {
    /// The place of the call's entry.
    pub place: u64,
    pub reply: Reply,
    /// What was read.
    pub view: Option<View>,
    /// What was claimed.
    pub work: Option<Work>,
    /// Whether the copy of what was read or claimed found no memory.
    pub short: bool,
}

impl Called {
    pub fn copy(&self, alloc: Global) -> Result<Called, NoMemory>
        ensures { IfOk result (λ c. c ≡ self.now) }
    {
        Ok(Called {
            place: self.place,
            reply: self.reply.copy(alloc)?,
            view: self.view.copy(alloc)?,
            work: self.work.copy(alloc)?,
            short: self.short,
        })
    }
}

impl TryCopy for Called {
    fn copy(&self, alloc: Global) -> Result<Called, NoMemory> {
        Called::copy(self, alloc)
    }
}
