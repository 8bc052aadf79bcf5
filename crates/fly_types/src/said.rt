ghost use Rattle.std.specs.Prelude.{◌≡◌, ◌↔◌, IfOk, IsTrue};

use crate::same::is_same_said;
use crate::{LiteralMap, NoMemory, Text, TryCopy};
use std::alloc::Global;

/// What a child's standard output says of its task: a `LiteralMap` of its outputs, or an `ErrorDocument`'s error.
#[derive(Debug, Drop)]
pub enum Said {
    Outputs(LiteralMap),
    Error {
        code: Text,
        message: Text,
        /// Whether another attempt may help.
        recoverable: bool,
    },
    /// More bytes than a document may have.
    TooLarge,
    /// Bytes that are not the document that the status calls for.
    Neither,
}

impl Said {
    /// A second one.
    pub fn copy(&self, alloc: Global) -> Result<Said, NoMemory>
        ensures { IfOk result (λ c. c ≡ self.now) }
    {
        match self {
            Said::Outputs(outputs) => Ok(Said::Outputs(outputs.copy(alloc)?)),
            Said::Error {
                code,
                message,
                recoverable,
            } => Ok(Said::Error {
                code: code.copy(alloc)?,
                message: message.copy(alloc)?,
                recoverable: *recoverable,
            }),
            Said::TooLarge => Ok(Said::TooLarge),
            Said::Neither => Ok(Said::Neither),
        }
    }
}

impl TryCopy for Said {
    fn copy(&self, alloc: Global) -> Result<Said, NoMemory> {
        Said::copy(self, alloc)
    }
}

impl PartialEq for Said {
    ghost use Rattle.fly_types.specs.Same.{same_said};
    ghost use Rattle.fly_types.specs.Laws.{same_said-partial_laws};

    ghost eq = { same_said };

    ghost laws = { same_said-partial_laws };

    fn eq(&self, other: &Said) -> bool
        ensures value { result ≡ same_said self.now other.now }
        ensures same { IsTrue result ↔ (self.now ≡ other.now) }
    {
        is_same_said(self, other)
    }
}

impl Eq for Said {
    ghost use Rattle.fly_types.specs.Laws.{same_said-laws};

    ghost laws = { same_said-laws };
}
