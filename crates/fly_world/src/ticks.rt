//! The moment, and the reservations that have ended.
ghost use Rattle.std.specs.Prelude.{◌≡◌, Some};
ghost use Rattle.fly_world.specs.Answers.{answer_in, CanMakeAnswer};
ghost use Rattle.fly_world.specs.Steps as steps;
ghost use Rattle.fly_world.specs.Store.{IsSound};

use crate::answers::{Answer, Change};
use crate::store::Store;
use fly_state::Reply;

/// The latest moment that a clock counts for.
const LATEST: i64 = 1 << 62;

/// The moment becomes the greater of itself and what a clock shows.
pub(crate) fn on_tick(store: &Store, now: i64) -> Answer
    ensures answer { answer_in store.now (Some result) ≡ steps.on_tick store.now.world now }
    ensures change { CanMakeAnswer store.now (Some result) }
{
    let moment = store.moment().max(now.min(LATEST));
    Answer {
        reply: Reply::Now(moment),
        change: Change::Moment(moment),
    }
}

/// The reservations of what is final are let go.
pub(crate) fn on_sweep(store: &Store) -> Answer
    requires { IsSound store.now }
    ensures answer { answer_in store.now (Some result) ≡ steps.on_sweep store.now.plan store.now.world }
    ensures change { CanMakeAnswer store.now (Some result) }
{
    Answer {
        reply: Reply::Swept(store.ended_count()),
        change: Change::Sweep,
    }
}
