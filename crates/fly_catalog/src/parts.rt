use fly_docs::DatasetId;
use fly_types::{LiteralMap, Text};

/// What was stored in a dataset under an id, as flyteidl's `Artifact` of `datacatalog`.
#[derive(Debug, Drop)]
pub struct Artifact {
    pub dataset: DatasetId,
    pub id: Text,
    pub content: LiteralMap,
}

/// A name of an artifact within its dataset, as flyteidl's `Tag` of `datacatalog`.
#[derive(Debug, Drop)]
pub struct Tag {
    pub dataset: DatasetId,
    pub name: Text,
    /// The id of the artifact.
    pub artifact: Text,
}

/// The word of an owner that it makes the artifact of a tag, as flyteidl's `Reservation` of `datacatalog`.
#[derive(Debug, Drop)]
pub struct Reservation {
    pub dataset: DatasetId,
    pub tag: Text,
    pub owner: Text,
    /// From this moment on, in milliseconds, others may have it.
    pub expiry: i64,
}
