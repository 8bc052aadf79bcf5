ghost use Rattle.std.specs.Prelude.{◌≡◌, ◌≤◌, ◌+◌, ◌<◌, IfSome, position, bytes_eq, length, take, OnOk, OnErr, IfOk, is_ok, vec_len, option_map};
ghost use Rattle.fly_ports.specs.Files.{ReadsFile, AppendsToFile, FailsToAppend};
ghost use Rattle.fly_ports.specs.MemFiles.{is_failure, content_of, files_with, has_room, files_state, fails_read, files_after_read, appends_all, files_after_append, new_files};

use super::MemFile;
use super::slot::Slot;
use crate::room::front_past;
use crate::{Files, ReadFault, WriteFault};
use fly_types::{List, NoMemory};
use std::alloc::Global;
use std::marker::Model;

/// Files in memory. An append takes no memory: each path has its room from the start.
#[derive(Debug, Drop)]
pub struct MemFiles {
    files: Vec<Slot>,
    bad_reads: List<u64>,
    bad_appends: List<u64>,
    reads: u64,
    appends: u64,
    read_faults: u64,
    append_faults: u64,
}

impl Model for MemFiles {
    ghost use Rattle.fly_ports.specs.MemFiles.{FilesMemory};

    ghost Value = { FilesMemory };

    ghost view = { λ m. record { files = m.files.items; bad_reads = m.bad_reads; bad_appends = m.bad_appends; reads = m.reads; appends = m.appends; read_faults = m.read_faults; append_faults = m.append_faults } };
}

/// The place of the first file of this path.
fn place_of(files: &[Slot], path: &str) -> Option<usize>
    ensures place { result ≡ position (λ file. bytes_eq file.path path.now) files.now }
    ensures within { IfSome result (λ at. at < length files.now) }
{
    files.iter().position(|file| file.path() == path)
}

/// The content of the first file of this path.
fn content<'f>(files: &'f [Slot], path: &str) -> Option<&'f [u8]>
    ensures { option_map (λ r. r.now) result ≡ content_of files.now path.now }
{
    match place_of(files, path) {
        None => None,
        Some(at) => files[at].content(),
    }
}

/// Adds what there is room for to the first file of this path, and says whether that was all.
fn add(files: &mut Vec<Slot>, path: &str, bytes: &[u8]) -> bool
    ensures files { files.new.items ≡ files_with files.old.items path.now bytes.now }
    ensures all { result ≡ has_room files.old.items path.now bytes.now }
{
    match place_of(files, path) {
        None => false,
        Some(at) => {
            let file = &mut files[at];
            file.add(bytes)
        }
    }
}

/// A copy of the first `limit + 1` bytes of a content.
fn front(alloc: Global, content: &[u8], limit: u64) -> Result<Vec<u8>, NoMemory>
    ensures bytes { IfOk result (λ bytes. bytes.items ≡ take (limit + 1) content.now) }
    ensures bound { IfOk result (λ bytes. vec_len bytes ≤ limit + 1) }
{
    Ok(Vec::from_slice(alloc, front_past(content, limit))?)
}

impl MemFiles {
    /// Files at these paths. The reads and appends whose numbers, from 1, are in the lists fail, and such
    /// an append adds nothing. An append that goes past its path's room adds what there is room for, and
    /// fails; so does one to another path. Where a path comes twice, its first file counts.
    pub fn make(
        alloc: Global,
        files: List<MemFile>,
        bad_reads: List<u64>,
        bad_appends: List<u64>,
    ) -> Result<MemFiles, NoMemory>
        ensures { IfOk result (λ made. made ≡ new_files files bad_reads bad_appends) }
    {
        let mut slots = Vec::new(alloc);
        for file in files.into_vec() {
            slots.push(Slot::make(alloc, file)?)?;
        }
        Ok(MemFiles {
            files: slots,
            bad_reads,
            bad_appends,
            reads: 0,
            appends: 0,
            read_faults: 0,
            append_faults: 0,
        })
    }

    /// What a path holds, and nothing where there is no file.
    pub fn content(&self, path: &str) -> Option<&[u8]>
        ensures { option_map (λ r. r.now) result ≡ content_of self.now.files path.now }
    {
        content(&self.files, path)
    }

    /// How many reads have failed.
    pub fn read_faults(&self) -> u64
        ensures { result ≡ self.now.read_faults }
    {
        self.read_faults
    }

    /// How many appends have failed.
    pub fn append_faults(&self) -> u64
        ensures { result ≡ self.now.append_faults }
    {
        self.append_faults
    }
}

impl Files for MemFiles {
    ghost state = { files_state };

    fn read(&mut self, alloc: Global, path: &str, limit: u64) -> Result<Vec<u8>, ReadFault>
        ensures answer { ReadsFile (files_state self.old) (files_state self.new) path.now (limit + 1) result }
        ensures bound { IfOk result (λ bytes. vec_len bytes ≤ limit + 1) }
        ensures fails { is_failure result ≡ fails_read self.old }
        ensures after { self.new ≡ files_after_read self.old result }
    {
        let number = self.reads.saturating_add(1);
        if self.bad_reads.as_slice().contains(&number) {
            self.reads = number;
            self.read_faults = self.read_faults.saturating_add(1);
            return Err(ReadFault::Failed);
        }
        let Some(content) = content(&self.files, path) else {
            self.reads = number;
            return Err(ReadFault::Absent);
        };
        let bytes = front(alloc, content, limit)?;
        self.reads = number;
        Ok(bytes)
    }

    fn append(&mut self, path: &str, bytes: &[u8]) -> Result<(), WriteFault>
        ensures ok { OnOk result (AppendsToFile (files_state self.old) (files_state self.new) path.now bytes.now) }
        ensures err { OnErr result (FailsToAppend (files_state self.old) (files_state self.new) path.now bytes.now) }
        ensures answer { is_ok result ≡ appends_all self.old path.now bytes.now }
        ensures after { self.new ≡ files_after_append self.old path.now bytes.now }
    {
        self.appends = self.appends.saturating_add(1);
        let is_bad = self.bad_appends.as_slice().contains(&self.appends);
        if !is_bad && add(&mut self.files, path, bytes) {
            Ok(())
        } else {
            self.append_faults = self.append_faults.saturating_add(1);
            Err(WriteFault::Failed)
        }
    }
}
