//! The lock.
ghost use Rattle.std.specs.Prelude.{◌≡◌, ◌∷◌, [], Some};

use crate::rule::{Board, Start};
use crate::{Annals, Pass};
use atomic_table::{Refused, Table};
use std::alloc::Global;
use std::snapshot::Snapshot;

mod turns;

/// A ticket lock over an object with a growing list.
#[derive(Drop)]
pub struct Desk<O: Annals> {
    pub(crate) table: Board<O>,
    ghost sized: { (table.shared.table_id.words ≡ 2) × (table.shared.table_id.slots ≡ 1) },
}

/// Why no desk was started. The object comes back.
#[derive(Drop)]
pub enum StartFault<O> {
    /// There was no memory for the desk.
    NoMemory(O),
}

// The object of a list that has just that one.
fn only_object<O>(mut slots: Vec<Option<O>>) -> O
    requires { (object : O) × (slots.items ≡ Some object ∷ []) }
    ensures { slots.items ≡ Some result ∷ [] }
{
    let object = slots.pop().unwrap().unwrap();
    slots.destroy_empty();
    object
}

impl<O: Annals> Desk<O> {
    ghost use Rattle.std.specs.Prelude.{◌≡◌, ◌≤◌, [], false, Some, IfOk, IfErr};
    ghost use Rattle.fly_desk.specs.declared.desk.StartFault.TheVariants.{NoMemory};
    ghost use Rattle.fly_desk.specs.Pass.{IsOf, IsNew};

    /// A desk over the object, and a pass with all the calls. Want of memory hands the object back.
    pub fn start(alloc: Global, object: O, calls: u64) -> Result<(Desk<O>, Pass<O>), StartFault<O>>
        requires { calls ≤ O.spare object }
        ensures desk { IfOk result (λ t. IsOf t.0 t.1) }
        ensures pass { IfOk result (λ t. IsNew t.1 (O.entries object) (O.basis object) calls) }
        ensures refused { IfErr result (λ fault. fault ≡ NoMemory object) }
    {
        let about = Start {
            object: Snapshot::of(&object),
            calls,
        };
        let Ok(mut slots) = Vec::with_capacity(alloc, 1) else {
            return Err(StartFault::NoMemory(object));
        };
        slots.push_reserved(Some(object));
        match Table::new(alloc, &[0, 0], slots, &about) {
            Ok((table, seat)) => Ok((Desk { table }, Pass { seat, left: calls })),
            Err(Refused { slots }) => Err(StartFault::NoMemory(only_object(slots))),
        }
    }
}
