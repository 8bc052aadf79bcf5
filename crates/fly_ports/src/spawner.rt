ghost use Rattle.std.specs.Prelude.{◌≡◌, ◌≤◌, IfOk, length};
ghost use Rattle.fly_ports.specs.Spawner.{SpawnerState, run_of, RunsProgram};
ghost use Rattle.fly_ports.specs.declared.spawner.TheConstants.{MAX_OUTPUT};

use crate::SpawnFault;
use fly_types::{Bytes, List, NoMemory, Text};
use std::alloc::Global;

/// How many bytes of a program's output are kept at most.
pub const MAX_OUTPUT: usize = 1_048_577;

/// How a program ended: its status, if it had one, and the first `MAX_OUTPUT` bytes that it wrote to its standard
/// output.
#[derive(Debug, Drop, PartialEq, Eq)]
pub struct Ended {
    pub status: Option<i32>,
    pub out: Bytes,
}

impl Ended {
    pub fn copy(&self, alloc: Global) -> Result<Ended, NoMemory>
        ensures { IfOk result (λ ended. ended ≡ self.now) }
    {
        Ok(Ended {
            status: self.status,
            out: self.out.copy(alloc)?,
        })
    }
}

/// One call of a spawner: the run's name, the program with its words, its standard input, and the answer.
#[derive(Debug, Drop, PartialEq, Eq)]
pub struct Run {
    pub name: Text,
    pub words: List<Text>,
    pub input: Bytes,
    pub answer: Result<Ended, SpawnFault>,
}

impl Run {
    /// A run with copies of these.
    pub(crate) fn of(
        alloc: Global,
        name: &Text,
        words: &List<Text>,
        input: &[u8],
        answer: &Result<Ended, SpawnFault>,
    ) -> Result<Run, NoMemory>
        ensures { IfOk result (λ run. run ≡ run_of name.now words.now input.now answer.now) }
    {
        let answer = match answer {
            Ok(ended) => Ok(ended.copy(alloc)?),
            Err(fault) => Err(*fault),
        };
        Ok(Run {
            name: name.copy(alloc)?,
            words: words.copy(alloc)?,
            input: Bytes::from_vec(Vec::from_slice(alloc, input)?),
            answer,
        })
    }

    pub fn copy(&self, alloc: Global) -> Result<Run, NoMemory>
        ensures { IfOk result (λ run. run ≡ self.now) }
    {
        Run::of(
            alloc,
            &self.name,
            &self.words,
            self.input.as_slice(),
            &self.answer,
        )
    }
}

/// Runs programs, one at a time.
pub trait Spawner {
    /// The runs so far, where they are told (a call that answered for want of memory is none), and how many
    /// of them have failed.
    ghost state: { Self → SpawnerState };

    /// Starts the first word with the others, hands it `input`, and waits for its end. A program that
    /// leaves some of its input unread is no fault. Output past `MAX_OUTPUT` bytes is dropped.
    fn run(
        &mut self,
        alloc: Global,
        name: &Text,
        words: &List<Text>,
        input: &[u8],
    ) -> Result<Ended, SpawnFault>
        ensures answer { RunsProgram (state self.old) (state self.new) name.now words.now input.now result }
        ensures bound { IfOk result (λ ended. length ended.out ≤ MAX_OUTPUT) };
}
