//! The turns at a desk.
use super::Desk;
use crate::plays::Draw;
use crate::steps::{OBJECT, TICKET, bring_home, shut, wait_for};
use crate::{Annals, Pass, Turn};
use std::sync::Wait;

impl<O: Annals> Desk<O> {
    ghost use Rattle.std.specs.Prelude.{◌≡◌, ◌+◌, ◌<◌, ◌≤◌, ◌∷◌, ◌++◌, [], true, false, Some, length};
    ghost use Rattle.fly_desk.specs.Annals.{StartsWith, HasCalls, IsMadeOf, AddsOne};
    ghost use Rattle.fly_desk.specs.Pass.{IsOf, seen, own, calls_left, calls_of, opening_of, basis_of, is_out, list_out, spare_out, HasSameStart, KeepsItsCalls};

    /// Waits for a turn, and hands the object out. Nothing is said of how long it waits, nor in which order threads come.
    ///
    /// A turn ends in `leave`. A thread that has a turn out and enters the same desk by another pass waits for ever.
    pub fn enter<R: Wait>(&self, rt: &R, pass: &mut Pass<O>) -> Turn<O>
        requires desk { IsOf self.now pass.old }
        requires idle { is_out pass.old ≡ false }
        requires left { 0 < calls_left pass.old }
        ensures desk { IsOf self.now pass.new }
        ensures out { is_out pass.new ≡ true }
        ensures list { list_out pass.new ≡ O.entries result }
        ensures spare { (spare_out pass.new ≡ O.spare result) × (0 < O.spare result) }
        ensures opening { StartsWith (O.entries result) (opening_of pass.old) }
        ensures seen { StartsWith (O.entries result) (seen pass.old) }
        ensures placed { HasCalls (O.entries result) (own pass.old) }
        ensures basis { basis_of pass.new ≡ Some (O.basis result) }
        ensures start { HasSameStart pass.new pass.old }
        ensures kept { KeepsItsCalls pass.old pass.new }
    {
        let board = &self.table.shared;
        let ticket = board.fetch_add::<Draw>(&mut pass.seat, TICKET, 1);
        let object = wait_for(rt, board, &mut pass.seat, ticket);
        Turn { object }
    }

    /// Takes the object back with one entry more, which is from then on one of the pass's own calls.
    pub fn leave(&self, pass: &mut Pass<O>, turn: Turn<O>)
        requires desk { IsOf self.now pass.old }
        requires out { is_out pass.old ≡ true }
        requires entry { AddsOne (list_out pass.old) (O.entries turn) }
        requires spare { spare_out pass.old ≤ O.spare turn + 1 }
        requires basis { basis_of pass.old ≡ Some (O.basis turn) }
        ensures desk { IsOf self.now pass.new }
        ensures idle { is_out pass.new ≡ false }
        ensures seen { seen pass.new ≡ O.entries turn }
        ensures own { (entry : O.Entry) → O.entries turn ≡ list_out pass.old ++ entry ∷ [] → own pass.new ≡ own pass.old ++ (length (list_out pass.old), entry) ∷ [] }
        ensures left { calls_left pass.new + 1 ≡ calls_left pass.old }
        ensures start { HasSameStart pass.new pass.old }
    {
        let Turn { object } = turn;
        bring_home(&self.table.shared, &mut pass.seat, object);
        pass.left -= 1;
    }

    /// The object, once every call that was made is this pass's own and every call left is this pass's.
    pub fn close(self, pass: Pass<O>) -> O
        requires desk { IsOf self pass }
        requires idle { is_out pass ≡ false }
        requires last { length (own pass) + calls_left pass ≡ calls_of pass }
        ensures seen { StartsWith (O.entries result) (seen pass) }
        ensures basis { basis_of pass ≡ Some (O.basis result) }
        ensures history { IsMadeOf (O.entries result) (opening_of pass) (own pass) }
        ensures number { length (O.entries result) + calls_left pass ≡ length (opening_of pass) + calls_of pass }
    {
        let Desk { table } = self;
        let mut closed = shut(table, pass.into_seat());
        let slot = closed.take(OBJECT);
        closed.free();
        slot.unwrap()
    }
}
