//! The data catalog: datasets, artifacts and their tags, the reservations of artifacts that are to be made, and the
//! names under which the outputs of cached nodes are kept.
#![tactic(auto)]

mod cached;
mod catalog;
mod names;
mod owners;
mod parts;
mod requests;
mod reservations;
mod table;

pub use cached::{cached_dataset, cached_tag, owner_of};
pub use catalog::Catalog;
pub use owners::OwnerTest;
pub use parts::{Artifact, Reservation, Tag};
pub use requests::{CatalogFault, Grant, Selector};
