ghost use Rattle.std.specs.Prelude.{◌≡◌, ◌<◌, false};
ghost use Rattle.fly_world.specs.Journals.{is_begin};
ghost use Rattle.fly_world.specs.Kept.{Kept, IsLegal};
ghost use Rattle.fly_work.specs.Acting.{AddsCall};
ghost use Rattle.fly_work.specs.Parts.{MayStand};

use fly_state::Op;
use fly_world::{Called, World};

/// A store to which the calls of a turn are made, on which others may act between them.
pub(crate) trait Service {
    ghost store: { Self → Kept };

    /// Nobody else acts on it.
    ghost alone: { Self → Type 0 };

    /// The operation of a worker, as one entry with its reply.
    fn call(&mut self, worker: u32, op: Op) -> Called
        requires room { 0 < (store self.old).spare }
        requires later { is_begin op ≡ false }
        requires stands { MayStand (store self.old).plan worker op }
        ensures adds { AddsCall (alone self.old) (store self.old) (store self.new) worker op result }
        ensures alone { alone self.old → alone self.new };

    /// What the store keeps. The call does nothing.
    fn legal(&self)
        ensures { IsLegal (store self.now) };
}

impl<'p> Service for World<'p> {
    ghost store = { λ w. w };

    ghost alone = { λ w. Unit {0} };

    fn call(&mut self, worker: u32, op: Op) -> Called {
        self.perform(worker, op)
    }

    fn legal(&self) {
        self.legal_journal();
    }
}
