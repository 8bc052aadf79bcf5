ghost use Rattle.std.specs.Prelude.{◌≡◌, IfOk};

use fly_types::{NoMemory, Said, TryCopy};
use std::alloc::Global;

/// What a worker hears of a child at its end.
#[derive(Debug, Drop)]
pub enum Heard {
    /// The child could not be started or waited for.
    Fault,
    /// The child ended without a status, as by a signal.
    NoStatus,
    Ended { status: i32, said: Said },
}

impl Heard {
    pub fn copy(&self, alloc: Global) -> Result<Heard, NoMemory>
        ensures { IfOk result (λ c. c ≡ self.now) }
    {
        match self {
            Heard::Fault => Ok(Heard::Fault),
            Heard::NoStatus => Ok(Heard::NoStatus),
            Heard::Ended { status, said } => Ok(Heard::Ended {
                status: *status,
                said: said.copy(alloc)?,
            }),
        }
    }
}

impl TryCopy for Heard {
    fn copy(&self, alloc: Global) -> Result<Heard, NoMemory> {
        Heard::copy(self, alloc)
    }
}
