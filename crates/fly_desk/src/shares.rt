//! Passes that are cut in two, and joined.
ghost use Rattle.std.specs.Prelude.{◌≡◌, ◌<◌, ◌≤◌, ◌^◌, [], None};
ghost use Rattle.fly_desk.specs.Annals.{StartsWith, longer_of};
ghost use Rattle.fly_desk.specs.Plays.{view_with_rest, view_with_share, view_of_both, view_of_longer};

use crate::Annals;
use crate::plays::{Amount, Cut, Merge, Settle};
use crate::rule::{Place, Steps};
use crate::steps::TICKET;

/// Cuts a seat with these of the calls that are left from another.
pub(crate) fn cut<O: Annals, N: Amount>(
    board: &Steps<O>,
    seat: &mut Place<O>,
    calls: u64,
) -> Place<O>
    requires calls { (calls ≡ N.amount) × (calls ≤ seat.old.me.0.left) }
    requires table { (seat.old.table_id ≡ board.now.table_id) × (board.now.table_id.words ≡ 2) }
    requires idle { (seat.old.me.0.ticket ≡ None) × (seat.old.me.0.turn ≡ None) }
    ensures kept { (seat.new.table_id ≡ seat.old.table_id) × (seat.new.id ≡ seat.old.id) × (seat.new.me ≡ (view_with_rest calls seat.old.me.0, seat.old.me.1)) }
    ensures share { (result.table_id ≡ seat.old.table_id) × (result.me ≡ (view_with_share calls seat.old.me.0, [])) }
{
    board.split_seat::<Cut<N>>(seat)
}

/// Takes in what another seat knows and has.
pub(crate) fn merge<O: Annals>(board: &Steps<O>, seat: &mut Place<O>, other: Place<O>)
    requires table { (seat.old.table_id ≡ board.now.table_id) × (other.table_id ≡ board.now.table_id) × (board.now.table_id.words ≡ 2) }
    requires idle { (seat.old.me.0.ticket ≡ None) × (seat.old.me.0.turn ≡ None) }
    requires other { (other.me.0.ticket ≡ None) × (other.me.0.turn ≡ None) × (other.me.1 ≡ []) }
    ensures place { (seat.new.table_id ≡ seat.old.table_id) × (seat.new.id ≡ seat.old.id) }
    ensures knows { seat.new.me ≡ (view_of_longer (view_of_both seat.old.me.0 other.me.0), seat.old.me.1) }
    ensures prefixes { StartsWith (longer_of seat.old.me.0.seen other.me.0.seen) seat.old.me.0.seen × StartsWith (longer_of seat.old.me.0.seen other.me.0.seen) other.me.0.seen }
    ensures fits { seat.new.me.0.left < 2 ^ 64 }
{
    board.join_seat::<Merge>(seat, other);
    board.load::<Settle>(seat, TICKET);
}
