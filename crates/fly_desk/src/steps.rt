//! The steps of a turn.
ghost use Rattle.std.specs.Prelude.{◌≡◌, ◌+◌, ◌<◌, ◌≤◌, ◌∷◌, ◌++◌, [], true, is_some, Some, None, IfSome};
ghost use Rattle.std.specs.Mem.Slots.{slots_items, slots_len, IsFull};
ghost use Rattle.atomic_table.specs.Table.{Final, Seen};
ghost use Rattle.fly_desk.specs.declared.view.Origin.{Origin};
ghost use Rattle.fly_desk.specs.Annals.{StartsWith, HasCalls, AddsOne};
ghost use Rattle.fly_desk.specs.View.{list_in, spare_in, opening_in, basis_in};
ghost use Rattle.fly_desk.specs.Rule.{IsDesk};
ghost use Rattle.fly_desk.specs.Plays.{view_with_turn, view_with_call};

use crate::Annals;
use crate::plays::{Look, PassOn};
use crate::rule::{Board, Place, Steps};
use atomic_table::Closed;
use std::alloc::Global;
use std::sync::Wait;

/// The word of the next ticket.
pub(crate) const TICKET: usize = 0;

// The word of the ticket that is served.
const SERVING: usize = 1;

/// The place of the object.
pub(crate) const OBJECT: usize = 0;

/// Waits until the ticket is served, and takes the object out. It sleeps on the served ticket's word between two looks.
pub(crate) fn wait_for<O: Annals, R: Wait>(
    rt: &R,
    board: &Steps<O>,
    seat: &mut Place<O>,
    ticket: u64,
) -> O
    requires table { (seat.old.table_id ≡ board.now.table_id) × (board.now.table_id.words ≡ 2) × (board.now.table_id.slots ≡ 1) }
    requires waits { (seat.old.me.0.ticket ≡ Some ticket) × (seat.old.me.0.turn ≡ None) × (seat.old.me.1 ≡ []) }
    ensures place { (seat.new.table_id ≡ seat.old.table_id) × (seat.new.id ≡ seat.old.id) }
    ensures turn { seat.new.me ≡ (view_with_turn seat.old.me.0 (O.entries result) (O.spare result), (0, None) ∷ []) }
    ensures seen { StartsWith (O.entries result) seat.old.me.0.seen }
    ensures placed { HasCalls (O.entries result) seat.old.me.0.own }
    ensures opening { StartsWith (O.entries result) (opening_in seat.old.me.0) }
    ensures basis { IfSome seat.old.me.0.origin (λ o. O.basis result ≡ o.basis) }
    ensures spare { 0 < O.spare result }
{
    for _ in rt.forever() {
        let serving = board.load::<Look>(seat, SERVING);
        if serving == ticket {
            return board.exchange(seat, OBJECT, None).unwrap();
        }
        board.park(rt, SERVING, (serving & 0xffff_ffff) as u32);
    }
    unreachable!()
}

// Wakes whoever waits, once this ticket was served. Where the next one isn't drawn yet nobody waits, and whoever draws it
// finds it served.
fn wake_waiting<O: Annals>(board: &Steps<O>, served: u64)
    requires { board.now.table_id.words ≡ 2 }
{
    if board.peek(TICKET) != served.wrapping_add(1) {
        board.wake_all(SERVING);
    }
}

/// Puts the object home, serves the next ticket and wakes whoever waits.
pub(crate) fn bring_home<O: Annals>(board: &Steps<O>, seat: &mut Place<O>, object: O)
    requires table { (seat.old.table_id ≡ board.now.table_id) × (board.now.table_id.words ≡ 2) × (board.now.table_id.slots ≡ 1) }
    requires turn { (is_some seat.old.me.0.origin ≡ true) × (is_some seat.old.me.0.turn ≡ true) × (seat.old.me.1 ≡ (0, None) ∷ []) }
    requires entry { AddsOne (list_in seat.old.me.0) (O.entries object) }
    requires spare { spare_in seat.old.me.0 ≤ O.spare object + 1 }
    requires basis { basis_in seat.old.me.0 ≡ Some (O.basis object) }
    ensures place { (seat.new.table_id ≡ seat.old.table_id) × (seat.new.id ≡ seat.old.id) }
    ensures turn { (entry : O.Entry) → O.entries object ≡ list_in seat.old.me.0 ++ entry ∷ [] → seat.new.me ≡ (view_with_call seat.old.me.0 (list_in seat.old.me.0) entry, []) }
{
    let emptied = board.exchange(seat, OBJECT, Some(object));
    let None = emptied else { unreachable!() };
    let served = board.fetch_add::<PassOn>(seat, SERVING, 1);
    wake_waiting(board, served);
}

/// Closes the table, in a state in which the seat has its view.
pub(crate) fn shut<O: Annals>(table: Board<O>, seat: Place<O>) -> Closed<Option<O>, Global>
    requires { seat.table_id ≡ table.shared.table_id }
    ensures counts { slots_len result.slots ≡ table.shared.table_id.slots }
    ensures full { IsFull result.words × IsFull result.slots }
    ensures last { (origin : Origin O.Entry O.Basis) × Final (Seen (IsDesk O.entries O.spare O.basis origin) seat.id seat.me.0) (slots_items result.words) (slots_items result.slots) }
{
    table.close_with(seat)
}
