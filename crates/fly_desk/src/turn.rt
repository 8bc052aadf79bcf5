//! An object that is out.
ghost use Rattle.std.specs.Prelude.{◌≡◌};
ghost use Rattle.std.specs.Borrow.{sem, follows};
ghost use Rattle.fly_desk.specs.contracts.turn.Turn.{the_row};

use std::marker::Model;

/// The object of a desk while a pass has the turn. Contracts see it as the object. It isn't `Drop`: it ends in `Desk::leave`.
pub struct Turn<O> {
    pub(crate) object: O,
}

impl<O> Model for Turn<O> {
    ghost use Rattle.std.specs.Prelude.{ℕ};

    ghost Value = { O };

    ghost view = { λ turn. turn.object };
}

impl<O> Turn<O> {
    /// The object, to be changed in place.
    pub fn object(&mut self) -> &mut O
        ensures* writes_back { sem 𝓛 (follows (the_row O.row) O.row self.entry.ghost_name result.ghost_name (λ object. object)) }
        ensures value { result.now ≡ self.old }
    {
        &mut self.object
    }
}
