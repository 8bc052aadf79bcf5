//! The reservations that are held, in the order in which they were granted.
ghost use Rattle.std.specs.Prelude.{◌≡◌, ◌⊎◌, ℕ, IfOk, IfSome, OnOk, OnErr, Some, None, [], IsSome, not, filter, if◌then◌else◌, option_and_then, count_by};
ghost use Rattle.std.specs.Option.{option_copied};
ghost use Rattle.std.specs.Ordering.{nat_cmp};
ghost use Rattle.std.specs.BTreeMap.{get, values, IsEmpty, IsOrdered, IsUnchanged, Updates, insert_entry};
ghost use Rattle.fly_catalog.specs.declared.parts.Reservation as reservation;
ghost use Rattle.fly_catalog.specs.Catalog.{item_cmp};
ghost use Rattle.fly_catalog.specs.Reservations.{reservation_at, is_holder, Promises, MayPromise, without_key};

use crate::names::ItemKey;
use crate::{OwnerTest, Reservation};
use fly_types::{NoMemory, Text};
use std::alloc::Global;
use std::collections::BTreeMap;

/// Each reservation has a serial number of its own, in the order of grants, and its key leads to that number. A number
/// that led to a reservation which is gone leads to nothing.
#[derive(Drop)]
pub struct Reservations {
    pub live: BTreeMap<u64, Reservation>,
    pub serials: BTreeMap<ItemKey, u64>,
    pub next: u64,
}

impl Reservations {
    pub fn new(alloc: Global) -> Reservations
        ensures live { IsEmpty result.live }
        ensures ordered { IsOrdered nat_cmp result.live }
        ensures serials { IsEmpty result.serials }
    {
        Reservations {
            live: BTreeMap::new(alloc),
            serials: BTreeMap::new(alloc),
            next: 0,
        }
    }

    pub fn get(&self, key: &ItemKey) -> Option<&Reservation>
        ensures { option_copied result ≡ reservation_at self.now.serials self.now.live key.now }
    {
        let serial = self.serials.get(key)?;
        self.live.get(serial)
    }

    /// The number of the key's reservation, where there is one.
    pub fn serial(&self, key: &ItemKey) -> Option<u64>
        ensures some { IfSome result (λ s. get item_cmp self.now.serials key.now ≡ Some s) }
        ensures live { IfSome result (λ s. IsSome (get nat_cmp self.now.live s)) }
        ensures none { result ≡ None → reservation_at self.now.serials self.now.live key.now ≡ None }
    {
        match self.serials.get(key) {
            Some(serial) => {
                if self.live.contains_key(serial) {
                    Some(*serial)
                } else {
                    None
                }
            }
            None => None,
        }
    }

    /// Puts another reservation under a number.
    pub fn replace(&mut self, serial: u64, reservation: Reservation)
        requires { IsSome (get nat_cmp self.old.live serial) }
        ensures entries { self.new.live.entries ≡ insert_entry nat_cmp self.old.live.entries serial reservation }
        ensures updates { Updates nat_cmp self.old.live self.new.live serial (Some reservation) }
        ensures ordered { IsOrdered nat_cmp self.new.live }
        ensures rest { self.new ≡ record self.old { live = self.new.live } }
    {
        let Ok(_) = self.live.insert(serial, reservation) else {
            unreachable!();
        };
    }

    /// Leads the key to a new number, and puts the reservation there.
    pub fn append(&mut self, key: ItemKey, reservation: Reservation) -> Result<(), NoMemory>
        ensures promised { OnOk result (Promises self.old.serials self.new.serials self.old.next self.new.next key) }
        ensures entries { OnOk result (self.new.live.entries ≡ insert_entry nat_cmp self.old.live.entries self.old.next reservation) }
        ensures updates { OnOk result (Updates nat_cmp self.old.live self.new.live self.old.next (Some reservation)) }
        ensures ordered { OnOk result (IsOrdered nat_cmp self.new.live) }
        ensures kept { OnErr result (IsUnchanged self.old.live self.new.live) }
        ensures may { OnErr result (MayPromise self.old.serials self.new.serials self.old.next self.new.next key) }
    {
        let serial = self.promise(key)?;
        self.live.insert(serial, reservation)?;
        Ok(())
    }

    /// Leads the key to a new number, under which nothing stands.
    fn promise(&mut self, key: ItemKey) -> Result<u64, NoMemory>
        ensures serial { IfOk result (λ s. s ≡ self.old.next) }
        ensures ok { OnOk result (Promises self.old.serials self.new.serials self.old.next self.new.next key) }
        ensures live { IsUnchanged self.old.live self.new.live }
        ensures err { OnErr result (IsUnchanged self.old.serials self.new.serials) }
        ensures next { OnErr result (self.new.next ≡ self.old.next) }
    {
        let serial = self.next;
        let Some(next) = serial.checked_add(1) else {
            return Err(NoMemory);
        };
        self.serials.insert(key, serial)?;
        self.next = next;
        Ok(serial)
    }

    /// Takes the key's reservation away where the owner holds it, and answers whether it did.
    pub fn release(&mut self, key: &ItemKey, owner: &Text) -> bool
        ensures answer { result ≡ is_holder self.old.serials self.old.live key.now owner.now }
        ensures entries { self.new.live.entries ≡ (if result then without_key self.old.serials self.old.live.entries key.now else self.old.live.entries) }
        ensures fewer { (i : ℕ) (r : reservation.Reservation) → get nat_cmp self.new.live i ≡ Some r → get nat_cmp self.old.live i ≡ Some r }
        ensures ordered { IsOrdered nat_cmp self.new.live }
        ensures rest { self.new ≡ record self.old { live = self.new.live } }
    {
        let _count = self.live.len();
        if !self.is_holder(key, owner) {
            return false;
        }
        if let Some(serial) = self.serials.get(key) {
            self.live.remove(serial);
        }
        true
    }

    /// Takes the reservations away whose owner has ended.
    pub fn sweep<T: OwnerTest>(&mut self, test: &T)
        ensures entries { self.new.live.entries ≡ filter (λ e. not (T.ends test.now e.1.owner)) self.old.live.entries }
        ensures ordered { IsOrdered nat_cmp self.new.live }
        ensures rest { self.new ≡ record self.old { live = self.new.live } }
    {
        self.live
            .retain(|_serial, reservation| !test.ends(&reservation.owner));
    }

    /// How many have an owner that has ended.
    pub fn ended_count<T: OwnerTest>(&self, test: &T) -> usize
        ensures { result ≡ count_by (λ r. T.ends test.now r.owner) (values self.now.live) }
    {
        self.live
            .values()
            .filter(|reservation| test.ends(&reservation.owner))
            .count()
    }

    fn is_holder(&self, key: &ItemKey, owner: &Text) -> bool
        ensures { result ≡ is_holder self.now.serials self.now.live key.now owner.now }
    {
        match self.get(key) {
            Some(reservation) => *owner == reservation.owner,
            None => false,
        }
    }
}
