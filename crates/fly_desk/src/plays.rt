//! The kinds of step at a desk, by what each tells its pass.
use crate::Annals;
use crate::view::View;
use atomic_table::{Join, Play, Split};
use std::marker::{Brand, PhantomData};

/// A ticket is drawn.
pub(crate) struct Draw;

impl<O: Annals> Play<Option<O>, View<O::Entry, O::Basis>> for Draw {
    ghost use Rattle.fly_desk.specs.Plays.{Draws};

    ghost then = { Draws };
}

/// The ticket that is served is looked at.
pub(crate) struct Look;

impl<O: Annals> Play<Option<O>, View<O::Entry, O::Basis>> for Look {
    ghost use Rattle.fly_desk.specs.Plays.{Looks};

    ghost then = { Looks O.entries O.spare O.basis };
}

/// The next ticket is served.
pub(crate) struct PassOn;

impl<O: Annals> Play<Option<O>, View<O::Entry, O::Basis>> for PassOn {
    ghost use Rattle.fly_desk.specs.Plays.{PassesOn};

    ghost then = { PassesOn O.entries O.spare O.basis };
}

/// A number of calls. Each call of a function picks it.
pub(crate) trait Amount {
    ghost use Rattle.std.specs.Prelude.{ℕ};

    ghost amount: { ℕ };
}

impl Amount for Brand {
    ghost use Rattle.std.specs.Prelude.{ℕ};

    ghost amount = { 0 };
}

/// That many calls go to a new pass.
pub(crate) struct Cut<N> {
    of: PhantomData<N>,
}

impl<E, B, N: Amount> Split<View<E, B>> for Cut<N> {
    ghost use Rattle.fly_desk.specs.Plays.{view_with_rest, view_with_share};

    ghost left = { view_with_rest N.amount };

    ghost right = { view_with_share N.amount };
}

/// A pass gives all that it has to another.
pub(crate) struct Merge;

impl<E, B> Join<View<E, B>> for Merge {
    ghost use Rattle.fly_desk.specs.View.{blank_view};
    ghost use Rattle.fly_desk.specs.Plays.{view_of_both};

    ghost both = { view_of_both };

    ghost spent = { blank_view };
}

/// What a pass has a note of, it has seen.
pub(crate) struct Settle;

impl<O: Annals> Play<Option<O>, View<O::Entry, O::Basis>> for Settle {
    ghost use Rattle.fly_desk.specs.Plays.{Settles};

    ghost then = { Settles };
}
