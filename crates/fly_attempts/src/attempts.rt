ghost use Rattle.std.specs.Prelude.{◌≡◌, ◌<◌, ◌≤◌, ◌+◌, ℕ, [], ◌∷◌, ◌++◌, length, slice_get, vec_len, vec_capacity, IfOk, OnOk, OnErr, IfSome, IsSome, Some, None, option_and_then};
ghost use Rattle.fly_attempts.specs.Tables.{IsFirstOpen};

use crate::launches::Launches;
use crate::{Ending, Handout, Launch};
use fly_docs::AttemptName;
use fly_policy::Outcome;
use fly_types::{LiteralMap, NoMemory, Text};
use std::alloc::Global;
use std::marker::Model;

/// The attempts of the tasks of a run: what was launched, what of it was handed out, in the order of launches, and
/// what each came to. Contracts see three lists.
#[derive(Drop)]
pub struct Attempts {
    launches: Launches,
    /// The claims of the first launches.
    handouts: Vec<Handout>,
    /// What attempts came to, in the order in which it was told.
    endings: Vec<Ending>,
    /// For each launch the place of its ending.
    ends: Vec<Option<usize>>,
    /// The number of the first launch without an ending.
    first_open: usize,
}

impl Model for Attempts {
    ghost use Rattle.std.specs.Prelude.{◌≤◌, length, vec_capacity};
    ghost use Rattle.std.specs.Coded.{codes};
    ghost use Rattle.fly_types.specs.contracts.literals.Literal as literal;
    ghost use Rattle.fly_attempts.specs.Attempts.{AttemptLists};
    ghost use Rattle.fly_attempts.specs.Tables.{lists_of, IsKept};

    ghost Value = { AttemptLists };

    ghost coded = { Prim.hlevel (codes, literal.the_row.coded) };

    ghost view = { λ a. lists_of a.launches a.handouts.items a.endings.items };

    ghost invariant = { λ a. IsKept a.launches a.handouts a.endings a.ends a.first_open };
}

impl Attempts {
    ghost use Rattle.std.specs.Prelude.{◌≡◌, ◌<◌, IfOk, OnOk, OnErr, IfSome, IsSome, Some, None, length, option_map};
    ghost use Rattle.std.specs.Option.{option_copied};
    ghost use Rattle.fly_attempts.specs.Parts.{handout_of, ending_of};
    ghost use Rattle.fly_attempts.specs.Attempts.{no_attempts, number_of, launch_at, claim_at, settlement_at, numbers_of, unclaimed, unsettled, with_launch, with_claim, with_settlement};

    /// No attempts.
    pub fn new(alloc: Global) -> Attempts
        ensures { result ≡ no_attempts }
    {
        Attempts {
            launches: Launches::new(alloc),
            handouts: Vec::new(alloc),
            endings: Vec::new(alloc),
            ends: Vec::new(alloc),
            first_open: 0,
        }
    }

    /// How many were launched.
    pub fn len(&self) -> usize
        ensures { result ≡ length self.now.launches }
    {
        self.launches.len()
    }

    /// The number of the launch of a name, in the order of launches from 0.
    pub fn number_of(&self, alloc: Global, name: &AttemptName) -> Result<Option<usize>, NoMemory>
        ensures { IfOk result (λ number. number ≡ number_of self.now name.now) }
    {
        self.launches.number_of(alloc, name)
    }

    /// The launch of a number. Takes no memory.
    pub fn launched(&self, number: usize) -> &Launch
        requires { number < length self.now.launches }
        ensures { launch_at self.now number ≡ Some result.now }
    {
        self.launches.item(number)
    }

    /// Adds a launch. All memory is taken here that its claim and its settlement will need.
    pub fn launch(
        &mut self,
        alloc: Global,
        name: AttemptName,
        inputs: LiteralMap,
        place: u64,
    ) -> Result<(), NoMemory>
        requires { number_of self.old name ≡ None }
        ensures ok { OnOk result
            (self.new ≡ with_launch self.old (record { name = name; inputs = inputs; place = place })) }
        ensures err { OnErr result (self.new ≡ self.old) }
    {
        make_room(
            self.launches.len(),
            &mut self.handouts,
            &mut self.endings,
            &mut self.ends,
        )?;
        let launch = Launch {
            name,
            inputs,
            place,
        };
        self.launches.push(alloc, launch)?;
        let Ok(()) = self.ends.push(None) else {
            unreachable!();
        };
        Ok(())
    }

    /// The first launch that nobody has claimed. Takes no memory.
    pub fn unclaimed(&self) -> Option<&Launch>
        ensures { option_copied result ≡ unclaimed self.now }
    {
        self.launches.get(self.handouts.len())
    }

    /// Hands out the first launch that nobody has claimed. Takes no memory.
    pub fn claim(&mut self, moment: i64, place: u64)
        requires { IsSome (unclaimed self.old) }
        ensures { IfSome (unclaimed self.old)
            (λ l. self.new ≡ with_claim self.old (record { name = l.name; moment = moment; place = place })) }
    {
        let Ok(()) = self.handouts.push(Handout { moment, place }) else {
            unreachable!();
        };
    }

    /// When the attempt of a number was handed out, where it was. Takes no memory.
    pub fn claim_of(&self, number: usize) -> Option<&Handout>
        ensures { option_copied result ≡ option_map handout_of (claim_at self.now number) }
    {
        self.handouts.get(number)
    }

    /// What the attempt of a number came to, where it did. Takes no memory.
    pub fn outcome_of(&self, number: usize) -> Option<&Ending>
        ensures { option_copied result ≡ option_map (ending_of number) (settlement_at self.now number) }
    {
        match end_at(&self.ends, number) {
            Some(at) => self.endings.get(at),
            None => None,
        }
    }

    /// Says what a claimed attempt came to. Takes no memory.
    pub fn settle(&mut self, number: usize, outcome: Outcome, place: u64)
        requires claimed { IsSome (claim_at self.old number) }
        requires unsettled { settlement_at self.old number ≡ None }
        ensures { IfSome (launch_at self.old number)
            (λ l. self.new ≡ with_settlement self.old (record { name = l.name; outcome = outcome; place = place })) }
    {
        let at = self.endings.len();
        let ending = Ending {
            number,
            outcome,
            place,
        };
        let Ok(()) = self.endings.push(ending) else {
            unreachable!();
        };
        self.ends[number] = Some(at);
        self.first_open = next_open(&self.ends, self.first_open);
    }

    /// The first claimed attempt without an outcome. Takes no memory.
    pub fn unsettled(&self) -> Option<&AttemptName>
        ensures { option_copied result ≡ unsettled self.now }
    {
        if self.first_open >= self.handouts.len() {
            return None;
        }
        Some(&self.launches.item(self.first_open).name)
    }

    /// The numbers of the launches of an execution, rising. Takes no memory.
    pub fn of_execution(&self, exec: &Text) -> &[usize]
        ensures { result.now ≡ numbers_of self.now exec.now }
    {
        self.launches.of_execution(exec)
    }
}

/// Makes room for what belongs to one more launch than there are.
fn make_room(
    launches: usize,
    handouts: &mut Vec<Handout>,
    endings: &mut Vec<Ending>,
    ends: &mut Vec<Option<usize>>,
) -> Result<(), NoMemory>
    requires handouts { vec_len handouts.old ≤ launches }
    requires endings { vec_len endings.old ≤ launches }
    ensures handouts { handouts.new.items ≡ handouts.old.items }
    ensures endings { endings.new.items ≡ endings.old.items }
    ensures ends { ends.new.items ≡ ends.old.items }
    ensures handouts_kept { vec_capacity handouts.old ≤ vec_capacity handouts.new }
    ensures endings_kept { vec_capacity endings.old ≤ vec_capacity endings.new }
    ensures handouts_room { OnOk result (launches < vec_capacity handouts.new) }
    ensures endings_room { OnOk result (launches < vec_capacity endings.new) }
    ensures ends_room { OnOk result (vec_len ends.new < vec_capacity ends.new) }
{
    let more = (launches - handouts.len()).saturating_add(1);
    handouts.reserve(more)?;
    let more = (launches - endings.len()).saturating_add(1);
    endings.reserve(more)?;
    ends.reserve(1)?;
    Ok(())
}

/// The place of the ending of a number.
fn end_at(ends: &[Option<usize>], number: usize) -> Option<usize>
    ensures { result ≡ option_and_then (λ o. o) (slice_get ends.now number) }
{
    match ends.get(number) {
        Some(end) => *end,
        None => None,
    }
}

/// The first number from one on that has no end.
fn next_open(ends: &[Option<usize>], from: usize) -> usize
    requires within { from ≤ length ends.now }
    requires before { (i : ℕ) → i < from → (at : ℕ) × (slice_get ends.now i ≡ Some (Some at)) }
    ensures { IsFirstOpen ends.now result }
{
    let mut number = from;
    while number < ends.len() && ends[number].is_some() {
        number += 1;
    }
    number
}
