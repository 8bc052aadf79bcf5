ghost use Rattle.std.specs.Prelude.{◌≡◌, IfOk};

use fly_types::{NoMemory, Text, TryCopy};
use std::alloc::Global;

/// What names a dataset of the catalog, as flyteidl's `DatasetID` of `datacatalog`.
#[derive(Debug, PartialEq, Eq, Drop)]
pub struct DatasetId {
    pub project: Text,
    pub domain: Text,
    pub name: Text,
    pub version: Text,
}

impl DatasetId {
    pub fn copy(&self, alloc: Global) -> Result<DatasetId, NoMemory>
        ensures { IfOk result (λ i. i ≡ self.now) }
    {
        Ok(DatasetId {
            project: self.project.copy(alloc)?,
            domain: self.domain.copy(alloc)?,
            name: self.name.copy(alloc)?,
            version: self.version.copy(alloc)?,
        })
    }
}

impl TryCopy for DatasetId {
    fn copy(&self, alloc: Global) -> Result<DatasetId, NoMemory> {
        DatasetId::copy(self, alloc)
    }
}
