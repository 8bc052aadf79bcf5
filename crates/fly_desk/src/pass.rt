//! What a worker holds.
ghost use Rattle.std.specs.Prelude.{◌≡◌, ◌≤◌, is_some, true};
ghost use Rattle.fly_desk.specs.View.{ticket_count, slots_out};

use crate::rule::Place;
use crate::shares::{cut, merge};
use crate::{Annals, Desk};
use fly_types::NoMemory;
use std::marker::Brand;

/// The right to a number of calls, and in contracts what it has seen and its own calls with their places.
pub struct Pass<O: Annals> {
    pub(crate) seat: Place<O>,
    pub(crate) left: u64,
    ghost live: { is_some seat.me.0.origin ≡ true },
    ghost counted: { left ≡ seat.me.0.left },
    ghost may_call: { ticket_count seat.me.0.ticket ≤ left },
    ghost drawn: { is_some seat.me.0.ticket ≡ is_some seat.me.0.turn },
    ghost slots: { seat.me.1 ≡ slots_out seat.me.0.turn },
}

impl<O: Annals> Drop for Pass<O> {
    fn drop(self) {
        let Self { seat: _, left: _ } = self;
    }
}

impl<O: Annals> Pass<O> {
    ghost use Rattle.std.specs.Prelude.{◌≡◌, ◌+◌, ◌≤◌, ◌++◌, [], false, IfOk, OnOk, OnErr};
    ghost use Rattle.fly_desk.specs.Annals.{StartsWith, longer_of};
    ghost use Rattle.fly_desk.specs.Pass.{IsOf, seen, own, calls_left, is_out, HasSameStart};

    /// How many calls are left.
    pub fn left(&self) -> u64
        ensures { result ≡ calls_left self.now }
    {
        self.left
    }

    /// A pass for another worker, which has seen as much and has these of the calls that are left.
    ///
    /// It takes no memory today. `NoMemory` is there for a desk that keeps more for each pass, and leaves the pass as it was.
    pub fn split(&mut self, desk: &Desk<O>, calls: u64) -> Result<Pass<O>, NoMemory>
        requires desk { IsOf desk.now self.old }
        requires idle { is_out self.old ≡ false }
        requires calls { calls ≤ calls_left self.old }
        ensures desk { IsOf desk.now self.new × IfOk result (λ pass. IsOf desk.now pass) }
        ensures idle { (is_out self.new ≡ false) × IfOk result (λ pass. is_out pass ≡ false) }
        ensures seen { (seen self.new ≡ seen self.old) × IfOk result (λ pass. seen pass ≡ seen self.old) }
        ensures own { (own self.new ≡ own self.old) × IfOk result (λ pass. own pass ≡ []) }
        ensures left { OnOk result (calls_left self.new + calls ≡ calls_left self.old) × IfOk result (λ pass. calls_left pass ≡ calls) }
        ensures start { HasSameStart self.new self.old × IfOk result (λ pass. HasSameStart pass self.old) }
        ensures refused { OnErr result (calls_left self.new ≡ calls_left self.old) }
    {
        let seat = cut::<O, Brand>(&desk.table.shared, &mut self.seat, calls);
        self.left -= calls;
        Ok(Pass { seat, left: calls })
    }

    /// Takes in another pass: the longer of the two seen lists, the own calls and the calls left of both.
    pub fn join(&mut self, desk: &Desk<O>, other: Pass<O>)
        requires desk { IsOf desk.now self.old × IsOf desk.now other }
        requires idle { (is_out self.old ≡ false) × (is_out other ≡ false) }
        ensures desk { IsOf desk.now self.new }
        ensures idle { is_out self.new ≡ false }
        ensures seen { seen self.new ≡ longer_of (seen self.old) (seen other) }
        ensures prefixes { StartsWith (seen self.new) (seen self.old) × StartsWith (seen self.new) (seen other) }
        ensures own { own self.new ≡ own self.old ++ own other }
        ensures left { calls_left self.new ≡ calls_left self.old + calls_left other }
        ensures start { HasSameStart self.new self.old }
    {
        let Pass { seat, left } = other;
        merge(&desk.table.shared, &mut self.seat, seat);
        self.left += left;
    }

    pub(crate) fn into_seat(self) -> Place<O>
        ensures { result ≡ self.seat }
    {
        let Self { seat, left: _ } = self;
        seat
    }
}
