use fly_work::{Keep, KeepFault};
use fly_world::World;
use std::alloc::Global;

/// A keeper that keeps nothing: the journal of a run in memory stands in its store.
#[derive(Clone, Copy, Debug)]
pub(crate) struct InStore;

impl Keep for InStore {
    ghost use Rattle.std.specs.Prelude.{◌≡◌, ⊤, refl};
    ghost use Rattle.fly_make.specs.InStore.{same_both, same_first};

    ghost kept = { λ a entries b. b ≡ a };

    ghost kept_part = { λ a entries b. b ≡ a };

    ghost takes = { λ k plan. ⊤ };

    ghost faults = { λ k. 0 };

    fn keep(&mut self, _alloc: Global, _w: &World<'_>, _from: u64) -> Result<(), KeepFault> {
        Ok(())
    }

    ghost keeps_none = { λ k. refl };

    ghost keeps_both = { same_both };

    ghost keeps_first = { same_first };
}
