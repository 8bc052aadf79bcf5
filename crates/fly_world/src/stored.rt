ghost use Rattle.std.specs.Prelude.{◌≡◌, IfOk};

use fly_docs::DatasetId;
use fly_types::{LiteralMap, NoMemory, Text, TryCopy};
use std::alloc::Global;

/// An artifact of the catalog, with the dataset and the tag under which it stands.
#[derive(Debug, PartialEq, Eq, Drop)]
pub struct Stored {
    pub dataset: DatasetId,
    pub tag: Text,
    pub content: LiteralMap,
}

impl Stored {
    pub fn copy(&self, alloc: Global) -> Result<Stored, NoMemory>
        ensures { IfOk result (λ c. c ≡ self.now) }
    {
        Ok(Stored {
            dataset: self.dataset.copy(alloc)?,
            tag: self.tag.copy(alloc)?,
            content: self.content.copy(alloc)?,
        })
    }
}

impl TryCopy for Stored {
    fn copy(&self, alloc: Global) -> Result<Stored, NoMemory> {
        Stored::copy(self, alloc)
    }
}
