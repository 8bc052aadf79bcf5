ghost use Rattle.std.specs.Prelude.{◌≡◌};
ghost use Rattle.fly_catalog.specs.declared.requests.CatalogFault.TheVariants as faults;

use fly_types::{NoMemory, Text};

/// Why the catalog was not changed.
#[derive(Clone, Copy, Debug, PartialEq, Eq)]
pub enum CatalogFault {
    AlreadyExists,
    /// The dataset is not there.
    NoDataset,
    /// The dataset has no artifact of this id.
    NoArtifact,
    NoMemory,
}

impl From<NoMemory> for CatalogFault {
    ghost from_gives = { λ _ fault. fault ≡ faults.NoMemory };

    fn from(_: NoMemory) -> CatalogFault {
        CatalogFault::NoMemory
    }
}

/// How an artifact is named within its dataset, as `query_handle` of flyteidl's `GetArtifactRequest`.
#[derive(Debug, Drop)]
pub enum Selector {
    Id(Text),
    Tag(Text),
}

/// The answer to whoever asks for a reservation.
#[derive(Debug, Drop)]
pub enum Grant {
    /// It is the caller's until this moment, in milliseconds.
    Granted { expiry: i64 },
    /// Another has it.
    HeldBy { owner: Text, expiry: i64 },
}
