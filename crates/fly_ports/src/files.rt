ghost use Rattle.std.specs.Prelude.{◌≤◌, OnOk, OnErr, IfOk, ◌+◌, vec_len};
ghost use Rattle.fly_ports.specs.Files.{FilesState, ReadsFile, AppendsToFile, FailsToAppend};

use crate::{ReadFault, WriteFault};
use std::alloc::Global;

/// Files by their paths: those of the system, or lists in memory.
pub trait Files {
    /// What each path holds, where this is told (a path with no file holds nothing), and how many reads and
    /// how many appends have failed.
    ghost state: { Self → FilesState };

    /// The first `limit + 1` bytes of the file, or all of them where there are fewer. A longer answer
    /// than `limit` says that the file passes the limit.
    fn read(&mut self, alloc: Global, path: &str, limit: u64) -> Result<Vec<u8>, ReadFault>
        ensures answer { ReadsFile (state self.old) (state self.new) path.now (limit + 1) result }
        ensures bound { IfOk result (λ bytes. vec_len bytes ≤ limit + 1) };

    /// Adds the bytes at the end of the file, and makes the file where there is none. An append that
    /// fails has done nothing or added a first part of them.
    fn append(&mut self, path: &str, bytes: &[u8]) -> Result<(), WriteFault>
        ensures ok { OnOk result (AppendsToFile (state self.old) (state self.new) path.now bytes.now) }
        ensures err { OnErr result (FailsToAppend (state self.old) (state self.new) path.now bytes.now) };
}
