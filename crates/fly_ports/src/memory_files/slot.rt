ghost use Rattle.std.specs.Prelude.{◌≡◌, ◌-◌, Some, None, length, take, nat_le, IfOk, option_map, unwrap_or, bytes_eq};
ghost use Rattle.std.specs.Option.{option_copied};

use super::MemFile;
use crate::room::add_within;
use fly_types::{NoMemory, Text};
use std::alloc::Global;
use std::marker::Model;

/// A file in memory that has its room reserved, also while it is absent.
#[derive(Debug, Drop)]
pub(super) struct Slot {
    path: Text,
    is_there: bool,
    bytes: Vec<u8>,
    room: u64,
}

impl Model for Slot {
    ghost use Rattle.std.specs.Prelude.{◌≡◌, ◌≤◌, Some, None, [], false, vec_capacity, if◌then◌else◌};
    ghost use Rattle.fly_ports.specs.declared.memory_files.MemFile.{MemFile};

    ghost Value = { MemFile };

    ghost view = { λ s. record { path = s.path; content = if s.is_there then Some s.bytes.items else None; room = s.room } };

    ghost invariant = { λ s. (s.room ≤ vec_capacity s.bytes) × (s.is_there ≡ false → s.bytes.items ≡ []) };
}

impl Slot {
    ghost use Rattle.fly_ports.specs.MemFiles.{bytes_of, file_with};

    pub(super) fn make(alloc: Global, file: MemFile) -> Result<Slot, NoMemory>
        ensures { IfOk result (λ slot. slot ≡ file) }
    {
        let MemFile {
            path,
            content,
            room,
        } = file;
        let (is_there, mut bytes) = match content {
            Some(content) => (true, content.into_vec()),
            None => (false, Vec::new(alloc)),
        };
        bytes.reserve((room as usize).saturating_sub(bytes.len()))?;
        Ok(Slot {
            path,
            is_there,
            bytes,
            room,
        })
    }

    pub(super) fn path(&self) -> &str
        ensures { result.now ≡ self.now.path }
    {
        self.path.as_str()
    }

    pub(super) fn content(&self) -> Option<&[u8]>
        ensures { option_map (λ r. r.now) result ≡ self.now.content }
    {
        if self.is_there {
            Some(&self.bytes)
        } else {
            None
        }
    }

    /// Adds what there is room for, and says whether that was all.
    pub(super) fn add(&mut self, bytes: &[u8]) -> bool
        ensures added { self.new ≡ file_with self.old bytes.now }
        ensures all { result ≡ nat_le (length bytes.now) (self.old.room - length (bytes_of self.old)) }
    {
        self.is_there = true;
        add_within(&mut self.bytes, self.room, bytes)
    }
}
