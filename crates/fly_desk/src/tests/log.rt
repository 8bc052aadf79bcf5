//! A log over a plan that somebody else has.
ghost use Rattle.std.specs.Prelude.{◌≡◌, ◌+◌, ◌<◌, ◌≤◌, ◌∷◌, ◌++◌, []};

use crate::Annals;

/// What the marks rest on.
#[derive(Drop)]
pub(super) struct Plan {
    pub(super) tasks: u32,
}

/// The marks that workers leave over a plan, in a list that doesn't grow past its room.
#[derive(Drop)]
pub(super) struct Log<'p> {
    pub(super) plan: &'p Plan,
    pub(super) marks: Vec<(u32, u64)>,
}

impl<'p> Annals for Log<'p> {
    type Entry = (u32, u64);

    type Basis = Plan;

    ghost use Rattle.std.specs.Prelude.{ℕ, ◌-◌, vec_len, vec_capacity};

    ghost entries = { λ log. log.marks.items };

    ghost spare = { λ log. vec_capacity log.marks - vec_len log.marks };

    ghost basis = { λ log. log.plan.now };

    fn count(&self) -> u64 {
        self.marks.len() as u64
    }

    fn room(&self) -> u64 {
        (self.marks.capacity() - self.marks.len()) as u64
    }
}

/// Objects on which workers leave marks: the number of the worker, and that of its turn.
pub(super) trait Marks: Annals<Entry = (u32, u64)> {
    fn mark(&mut self, mark: (u32, u64))
        requires { 0 < Self.spare self.old }
        ensures marks { Self.entries self.new ≡ Self.entries self.old ++ mark ∷ [] }
        ensures room { Self.spare self.old ≤ Self.spare self.new + 1 }
        ensures plan { Self.basis self.new ≡ Self.basis self.old };
}

impl Marks for Log<'_> {
    fn mark(&mut self, mark: (u32, u64)) {
        self.marks.push_reserved(mark);
    }
}
