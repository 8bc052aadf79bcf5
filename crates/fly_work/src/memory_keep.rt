ghost use Rattle.std.specs.Prelude.{◌≡◌, ◌≤◌, ◌++◌, drop, length, IfOk, OnOk, OnErr};

use crate::{Keep, KeepFault};
use fly_state::Entry;
use fly_types::NoMemory;
use fly_world::World;
use std::alloc::Global;
use std::marker::Model;

/// A keeper in memory: a copy of each entry that it kept. It takes every plan.
#[derive(Drop)]
pub struct MemKeep {
    entries: Vec<Entry>,
    bad: Vec<u64>,
    calls: u64,
    faults: u64,
}

impl Model for MemKeep {
    ghost use Rattle.std.specs.Coded.{codes};
    ghost use Rattle.fly_types.specs.contracts.kinds.LiteralType as types;
    ghost use Rattle.fly_types.specs.contracts.literals.Literal as literals;
    ghost use Rattle.fly_types.specs.contracts.literals.Tree as trees;
    ghost use Rattle.fly_work.specs.MemKeep.{KeepMemory};

    ghost Value = { KeepMemory };

    ghost coded = { Prim.hlevel (codes, types.the_row.coded, literals.the_row.coded, trees.the_row.coded) };

    ghost view = { λ k. record { entries = k.entries.items; bad = k.bad.items; calls = k.calls; faults = k.faults } };
}

impl MemKeep {
    ghost use Rattle.fly_work.specs.MemKeep.{new_keep};

    /// An empty keeper. The calls whose numbers, from 1, are in `bad` fail and keep nothing. A call that answers for
    /// want of memory isn't counted.
    pub fn make(alloc: Global, bad: Vec<u64>) -> MemKeep
        ensures { result ≡ new_keep bad.items }
    {
        MemKeep {
            entries: Vec::new(alloc),
            bad,
            calls: 0,
            faults: 0,
        }
    }

    /// The entries so far.
    pub fn entries(&self) -> &[Entry]
        ensures { result.now ≡ self.now.entries }
    {
        &self.entries
    }

    /// How many calls have failed.
    pub fn faults(&self) -> u64
        ensures { result ≡ self.now.faults }
    {
        self.faults
    }
}

/// Copies of the entries of a store from a place on.
fn copies_from(alloc: Global, w: &World<'_>, from: u64) -> Result<Vec<Entry>, NoMemory>
    requires { from ≤ length w.now.world.entries }
    ensures { IfOk result (λ copies. copies.items ≡ drop from w.now.world.entries) }
{
    let mut copies = Vec::new(alloc);
    for place in from..w.len() {
        copies.push(w.entry(place).copy(alloc)?)?;
    }
    Ok(copies)
}

/// Appends copies of the entries of a store from a place on. Where no memory is found nothing changes.
fn append_copies(
    alloc: Global,
    entries: &mut Vec<Entry>,
    w: &World<'_>,
    from: u64,
) -> Result<(), NoMemory>
    requires { from ≤ length w.now.world.entries }
    ensures ok { OnOk result (entries.new.items ≡ entries.old.items ++ drop from w.now.world.entries) }
    ensures err { OnErr result (entries.new.items ≡ entries.old.items) }
{
    let mut copies = copies_from(alloc, w, from)?;
    entries.append(&mut copies)?;
    Ok(())
}

impl Keep for MemKeep {
    ghost use Rattle.std.specs.Prelude.{◌≡◌, ◌≤◌, ◌↔◌, drop, length, IsTrue, IsErrOf};
    ghost use Rattle.fly_state.specs.Plans.{RunPlan};
    ghost use Rattle.fly_work.specs.Keepers.{KeepsFrom};
    ghost use Rattle.fly_work.specs.MemKeep.{KeepsAll, KeepsFirst, TakesAny, fails_next, keep_after};
    ghost use Rattle.fly_work.specs.MemKeepLaws.{all-none, all-both, all-first};

    ghost kept = { KeepsAll };

    ghost kept_part = { KeepsFirst };

    ghost takes = { TakesAny };

    ghost faults = { λ k. k.faults };

    fn keep(&mut self, alloc: Global, w: &World<'_>, from: u64) -> Result<(), KeepFault>
        requires takes { TakesAny self.old w.now.plan }
        requires within { from ≤ length w.now.world.entries }
        ensures kept { KeepsFrom KeepsAll KeepsFirst (λ k. k.faults) self.old (drop from w.now.world.entries) self.new
            result }
        ensures takes { (plan : RunPlan) → TakesAny self.old plan → TakesAny self.new plan }
        ensures failed { IsErrOf result KeepFault.Failed ↔ IsTrue (fails_next self.old) }
        ensures after { self.new ≡ keep_after self.old (drop from w.now.world.entries) result }
    {
        let number = self.calls.saturating_add(1);
        if self.bad.as_slice().contains(&number) {
            self.calls = number;
            self.faults = self.faults.saturating_add(1);
            return Err(KeepFault::Failed);
        }
        append_copies(alloc, &mut self.entries, w, from)?;
        self.calls = number;
        Ok(())
    }

    ghost keeps_none = { all-none };

    ghost keeps_both = { all-both };

    ghost keeps_first = { all-first };
}
