//! All versions of one execution.
ghost use Rattle.std.specs.Prelude.{◌≡◌, [], IfOk, OnOk, OnErr};

use fly_docs::Submission;
use fly_state::ExecState;
use fly_types::NoMemory;
use std::alloc::Global;
use std::marker::Model;
use std::mem;

/// A version that is no longer current, and the place of the Write that made the next one.
#[derive(Debug, Drop)]
pub struct Past {
    pub state: ExecState,
    pub until: u64,
}

/// An execution with all its versions, each kept whole. Contracts see its name, its inputs and its states.
#[derive(Drop)]
pub struct Versions {
    submission: Submission,
    /// The versions before the current one, in their order.
    past: Vec<Past>,
    state: ExecState,
}

impl Model for Versions {
    ghost use Rattle.std.specs.Coded.{codes};
    ghost use Rattle.fly_types.specs.contracts.literals.Literal as literal;
    ghost use Rattle.fly_world.specs.World.{Execution};

    ghost Value = { Execution };

    ghost coded = { Prim.hlevel (codes, literal.the_row.coded) };

    ghost view = { λ v. record { name = v.submission.name; inputs = v.submission.inputs; past = v.past.items; state = v.state } };
}

impl Versions {
    ghost use Rattle.std.specs.Prelude.{◌<◌, ◌^◌};
    ghost use Rattle.fly_world.specs.World.{current_of, is_over, state_at, end_of};
    ghost use Rattle.fly_world.specs.Changes.{with_version};
    ghost use Rattle.fly_world.specs.Laws.{submission_of};

    /// An execution in its version 0.
    pub fn new(alloc: Global, submission: Submission, state: ExecState) -> Versions
        ensures { result ≡ record { name = submission.name; inputs = submission.inputs; past = []; state = state } }
    {
        Versions {
            submission,
            past: Vec::new(alloc),
            state,
        }
    }

    pub fn submission(&self) -> &Submission
        ensures { result.now ≡ submission_of self.now }
    {
        &self.submission
    }

    /// The state of the current version.
    pub fn current(&self) -> &ExecState
        ensures { result.now ≡ self.now.state }
    {
        &self.state
    }

    /// The number of the current version.
    pub fn number(&self) -> u64
        ensures value { result ≡ current_of self.now }
        ensures few { result < 2 ^ 63 }
    {
        self.past.len() as u64
    }

    /// Whether the execution has come to its end.
    pub fn is_over(&self) -> bool
        ensures { result ≡ is_over self.now }
    {
        self.state.root.phase.is_final()
    }

    /// A copy of the state of a version; of one that is not there yet, of the current one.
    pub fn copy_at(&self, alloc: Global, version: u64) -> Result<ExecState, NoMemory>
        ensures { IfOk result (λ state. state ≡ state_at self.now version) }
    {
        match self.past.get(version as usize) {
            Some(past) => past.state.copy(alloc),
            None => self.state.copy(alloc),
        }
    }

    /// The place of the Write that ended a version.
    pub fn end_of(&self, version: u64) -> Option<u64>
        ensures { result ≡ end_of self.now version }
    {
        match self.past.get(version as usize) {
            Some(past) => Some(past.until),
            None => None,
        }
    }

    /// Makes the next version, by the Write at the place.
    pub fn push(&mut self, state: ExecState, place: u64) -> Result<(), NoMemory>
        ensures ok { OnOk result (self.new ≡ with_version state place self.old) }
        ensures err { OnErr result (self.new ≡ self.old) }
    {
        self.past.reserve(1)?;
        let past = Past {
            state: mem::replace(&mut self.state, state),
            until: place,
        };
        let Ok(()) = self.past.push(past) else {
            unreachable!();
        };
        Ok(())
    }
}
