ghost use Rattle.std.specs.Prelude.{◌≡◌, ◌≤◌, ◌⊎◌, ◌++◌, ℕ, List, [], drop, length, OnOk};
ghost use Rattle.fly_ports.specs.Faults.{Rises};
ghost use Rattle.fly_state.specs.declared.entries.Entry.{Entry};
ghost use Rattle.fly_state.specs.Plans.{RunPlan};
ghost use Rattle.fly_work.specs.Keepers.{KeepsFrom};

use fly_types::NoMemory;
use fly_world::World;
use std::alloc::Global;

/// Why entries were not kept.
#[derive(Clone, Copy, Debug, PartialEq, Eq)]
pub enum KeepFault {
    /// They could not be written; a first part of them may have been.
    Failed,
    NoMemory,
}

/// Keeps the journal of a store, as text that is appended to.
pub trait Keep {
    /// These entries were appended between the two.
    ghost kept: { Self → List Entry → Self → Type 0 };

    /// A first part of the text of these entries was.
    ghost kept_part: { Self → List Entry → Self → Type 0 };

    /// It keeps journals of this plan.
    ghost takes: { Self → RunPlan → Type 0 };

    /// How often keeping has failed.
    ghost faults: { Self → ℕ };

    /// Keeps the entries of the store from a place on. Where no memory is found nothing was kept.
    fn keep(&mut self, alloc: Global, w: &World<'_>, from: u64) -> Result<(), KeepFault>
        requires takes { takes self.old w.now.plan }
        requires within { from ≤ length w.now.world.entries }
        ensures kept { KeepsFrom kept kept_part faults self.old (drop from w.now.world.entries) self.new result }
        ensures takes { (plan : RunPlan) → takes self.old plan → takes self.new plan };

    ghost keeps_none: { (k : Self) → kept k [] k };

    ghost keeps_both: { (a b c : Self) (es fs : List Entry) → kept a es b → kept b fs c → kept a (es ++ fs) c };

    ghost keeps_first: { (a b c : Self) (es fs : List Entry) → kept a es b → ((c ≡ b) ⊎ kept_part b fs c)
        → kept_part a (es ++ fs) c };
}

impl From<NoMemory> for KeepFault {
    ghost use Rattle.fly_work.specs.declared.keep.KeepFault.TheVariants.{NoMemory as no_memory};

    ghost from_gives = { λ _ fault. fault ≡ no_memory };

    fn from(_: NoMemory) -> KeepFault {
        KeepFault::NoMemory
    }
}
