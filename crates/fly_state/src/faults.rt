ghost use Rattle.std.specs.Prelude.{◌≡◌, IfOk};

use fly_types::{NoMemory, Text, TryCopy};
use std::alloc::Global;

/// Why a slot has no inputs.
#[derive(Debug, PartialEq, Eq, Drop)]
pub enum InputFault {
    /// The text, which no value of its enum is.
    EnumOutside { text: Text },
    /// The lengths of the first two mapped inputs whose lengths differ.
    UnequalLengths { first: u64, second: u64 },
    /// More items than an array may have.
    TooManyItems { count: u64 },
    NoMemory,
}

impl From<NoMemory> for InputFault {
    fn from(_: NoMemory) -> InputFault {
        InputFault::NoMemory
    }
}

impl InputFault {
    pub fn copy(&self, alloc: Global) -> Result<InputFault, NoMemory>
        ensures { IfOk result (λ c. c ≡ self.now) }
    {
        match self {
            InputFault::EnumOutside { text } => Ok(InputFault::EnumOutside {
                text: text.copy(alloc)?,
            }),
            InputFault::UnequalLengths { first, second } => Ok(InputFault::UnequalLengths {
                first: *first,
                second: *second,
            }),
            InputFault::TooManyItems { count } => Ok(InputFault::TooManyItems { count: *count }),
            InputFault::NoMemory => Ok(InputFault::NoMemory),
        }
    }
}

impl TryCopy for InputFault {
    fn copy(&self, alloc: Global) -> Result<InputFault, NoMemory> {
        InputFault::copy(self, alloc)
    }
}
