//! The rule of the table.
use crate::Annals;
use crate::view::View;
use atomic_table::{Seat, Shared, Table, TableRule};
use std::alloc::Global;
use std::marker::PhantomData;
use std::snapshot::Snapshot;

/// What a desk is started with.
pub struct Start<O> {
    pub object: Snapshot<O>,
    pub calls: u64,
}

impl<O> Drop for Start<O> {
    fn drop(self) {
        let Self {
            object: _,
            calls: _,
        } = self;
    }
}

/// The rule of a desk.
pub struct OneHistory<O> {
    of: PhantomData<O>,
}

impl<O: Annals> TableRule<Option<O>, View<O::Entry, O::Basis>, Start<O>> for OneHistory<O> {
    ghost use Rattle.fly_desk.specs.View.{opening_view};
    ghost use Rattle.fly_desk.specs.Rule.{IsDesk, origin_at};

    ghost holds = { λ start. IsDesk O.entries O.spare O.basis (origin_at O.entries O.spare O.basis start.object.value start.calls) };

    ghost first = { λ start. opening_view (origin_at O.entries O.spare O.basis start.object.value start.calls) };
}

/// The words and the slot, with their memory.
pub(crate) type Board<O> = Table<
    Option<O>,
    View<<O as Annals>::Entry, <O as Annals>::Basis>,
    Start<O>,
    OneHistory<O>,
    Global,
>;

/// The words and the slot as threads share them.
pub(crate) type Steps<O> = Shared<
    Option<O>,
    View<<O as Annals>::Entry, <O as Annals>::Basis>,
    Start<O>,
    OneHistory<O>,
>;

/// What a pass steps with.
pub(crate) type Place<O> = Seat<Option<O>, View<<O as Annals>::Entry, <O as Annals>::Basis>>;
