ghost use Rattle.std.specs.Prelude.{◌≡◌};

use fly_types::NoMemory;
use thiserror::Error;

/// Why a file gave no bytes.
#[derive(Clone, Copy, Debug, PartialEq, Eq, Error)]
pub enum ReadFault {
    #[error("the read failed")]
    Failed,
    #[error("there is no such file")]
    Absent,
    #[error("out of memory")]
    NoMemory,
}

impl From<NoMemory> for ReadFault {
    ghost use Rattle.fly_ports.specs.declared.faults.ReadFault.TheVariants.{NoMemory as no_memory};

    ghost from_gives = { λ _ fault. fault ≡ no_memory };

    fn from(_: NoMemory) -> ReadFault {
        ReadFault::NoMemory
    }
}

/// Why bytes were not all written.
#[derive(Clone, Copy, Debug, PartialEq, Eq, Error)]
pub enum WriteFault {
    #[error("the write failed")]
    Failed,
}

/// Why a program gave no answer.
#[derive(Clone, Copy, Debug, PartialEq, Eq, Error)]
pub enum SpawnFault {
    #[error("the program could not be run")]
    Failed,
    #[error("out of memory")]
    NoMemory,
}

impl From<NoMemory> for SpawnFault {
    ghost use Rattle.fly_ports.specs.declared.faults.SpawnFault.TheVariants.{NoMemory as no_memory};

    ghost from_gives = { λ _ fault. fault ≡ no_memory };

    fn from(_: NoMemory) -> SpawnFault {
        SpawnFault::NoMemory
    }
}
