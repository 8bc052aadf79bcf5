ghost use Rattle.std.specs.Prelude.{◌≡◌, IfOk};

mod files;
mod slot;

pub use files::MemFiles;
use fly_types::{Bytes, NoMemory, Text};
use std::alloc::Global;

/// A path of [`MemFiles`], with the file that is there, if any, and the room for its bytes in all.
#[derive(Debug, Drop)]
pub struct MemFile {
    pub path: Text,
    pub content: Option<Bytes>,
    pub room: u64,
}

impl MemFile {
    pub fn copy(&self, alloc: Global) -> Result<MemFile, NoMemory>
        ensures { IfOk result (λ file. file ≡ self.now) }
    {
        let content = match &self.content {
            Some(content) => Some(content.copy(alloc)?),
            None => None,
        };
        Ok(MemFile {
            path: self.path.copy(alloc)?,
            content,
            room: self.room,
        })
    }
}
