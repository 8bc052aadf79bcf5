ghost use Rattle.std.specs.Prelude.{◌≡◌};
ghost use Rattle.fly_world.specs.declared.admission.AdmitFault.TheVariants as faults;

use fly_types::NoMemory;

/// Why an entry was not added.
#[derive(Clone, Copy, Debug, PartialEq, Eq)]
pub enum AdmitFault {
    /// The entry is no step at this place.
    IllegalEntry(u64),
    NoMemory,
}

impl From<NoMemory> for AdmitFault {
    ghost from_gives = { λ _ fault. fault ≡ faults.NoMemory };

    fn from(_: NoMemory) -> AdmitFault {
        AdmitFault::NoMemory
    }
}
