ghost use Rattle.std.specs.Prelude.{◌≡◌, ◌≤◌, ◌+◌, IfOk, OnOk, OnErr, vec_len};
ghost use Rattle.std.specs.Io.KnownBytes.{Appends};
ghost use Rattle.fly_ports.specs.Sink.{Writes, FailsToWrite};

use crate::{Files, ReadFault, Sink, WriteFault};
use std::alloc::Global;
use std::io::{ErrorKind, Read, Write};
use std::{fs, io, rt};

/// The files of the system. They tell no contents, and each failure is counted.
#[derive(Drop)]
pub struct OsFiles<'r, R> {
    runtime: &'r R,
    read_faults: u64,
    append_faults: u64,
}

impl<'r, R: rt::Files> OsFiles<'r, R> {
    ghost use Rattle.fly_ports.specs.System.{read_faults, append_faults};

    pub fn make(runtime: &'r R) -> OsFiles<'r, R>
        ensures reads { read_faults result ≡ 0 }
        ensures appends { append_faults result ≡ 0 }
    {
        OsFiles {
            runtime,
            read_faults: 0,
            append_faults: 0,
        }
    }

    /// How many reads have failed.
    pub fn read_faults(&self) -> u64
        ensures { result ≡ read_faults self.now }
    {
        self.read_faults
    }

    /// How many appends have failed.
    pub fn append_faults(&self) -> u64
        ensures { result ≡ append_faults self.now }
    {
        self.append_faults
    }
}

fn read_fault(error: &io::Error) -> ReadFault {
    match error.kind() {
        ErrorKind::OutOfMemory => ReadFault::NoMemory,
        _ => ReadFault::Failed,
    }
}

/// The first `limit + 1` bytes of a file of the system, or all of them where there are fewer.
fn read_front<R: rt::Files>(
    runtime: &R,
    alloc: Global,
    path: &str,
    limit: u64,
) -> Result<Vec<u8>, ReadFault>
    ensures { IfOk result (λ bytes. vec_len bytes ≤ limit + 1) }
{
    let file = match fs::open(runtime, path) {
        Ok(file) => file,
        Err(error) if error.kind() == ErrorKind::NotFound => return Err(ReadFault::Absent),
        Err(error) => return Err(read_fault(&error)),
    };
    let most = limit.saturating_add(1);
    let mut bytes = Vec::new(alloc);
    match file.take(most).read_to_end(&mut bytes) {
        Ok(_) => {
            // A reader that keeps to its limit gave no more.
            bytes.truncate(most as usize);
            Ok(bytes)
        }
        Err(error) => Err(read_fault(&error)),
    }
}

fn append_all<R: rt::Files>(runtime: &R, path: &str, bytes: &[u8]) -> io::Result<()> {
    let mut options = fs::OpenOptions::new();
    let mut file = options.append(true).create(true).open(runtime, path)?;
    file.write_all(bytes)?;
    file.flush()
}

impl<'r, R: rt::Files> Files for OsFiles<'r, R> {
    ghost use Rattle.fly_ports.specs.System.{files_state};

    ghost state = { files_state };

    fn read(&mut self, alloc: Global, path: &str, limit: u64) -> Result<Vec<u8>, ReadFault> {
        match read_front(self.runtime, alloc, path, limit) {
            Ok(bytes) => Ok(bytes),
            Err(ReadFault::Failed) => {
                self.read_faults = self.read_faults.saturating_add(1);
                Err(ReadFault::Failed)
            }
            Err(ReadFault::Absent) => Err(ReadFault::Absent),
            Err(ReadFault::NoMemory) => Err(ReadFault::NoMemory),
        }
    }

    fn append(&mut self, path: &str, bytes: &[u8]) -> Result<(), WriteFault> {
        match append_all(self.runtime, path, bytes) {
            Ok(()) => Ok(()),
            Err(_) => {
                self.append_faults = self.append_faults.saturating_add(1);
                Err(WriteFault::Failed)
            }
        }
    }
}

/// A writer as a sink: a standard stream of the system, or any other. It tells no bytes, and each
/// failure is counted.
#[derive(Drop)]
pub struct OsSink<W> {
    writer: W,
    asked: u64,
    faults: u64,
}

impl<W: Write> OsSink<W> {
    ghost use Rattle.fly_ports.specs.System.{writer, faults};

    pub fn make(inner: W) -> OsSink<W>
        ensures writer { writer result ≡ inner }
        ensures faults { faults result ≡ 0 }
    {
        OsSink {
            writer: inner,
            asked: 0,
            faults: 0,
        }
    }

    /// The writer below.
    pub fn writer(&self) -> &W
        ensures { result.now ≡ writer self.now }
    {
        &self.writer
    }

    /// How many writes have failed.
    pub fn faults(&self) -> u64
        ensures { result ≡ faults self.now }
    {
        self.faults
    }
}

pub(crate) fn write_out<W: Write>(writer: &mut W, bytes: &[u8]) -> io::Result<()>
    ensures { OnOk result (Appends (W.contents writer.old) (W.contents writer.new) bytes.now) }
{
    writer.write_all(bytes)?;
    writer.flush()
}

impl<W: Write> Sink for OsSink<W> {
    ghost use Rattle.fly_ports.specs.System.{writer, sink_state};

    ghost state = { sink_state };

    fn put(&mut self, bytes: &[u8]) -> Result<(), WriteFault>
        ensures ok { OnOk result (Writes (sink_state self.old) (sink_state self.new) bytes.now) }
        ensures err { OnErr result (FailsToWrite (sink_state self.old) (sink_state self.new) bytes.now) }
        // A writer that tells its bytes has got all of these.
        ensures passed { OnOk result (Appends (W.contents (writer self.old)) (W.contents (writer self.new)) bytes.now) }
    {
        self.asked = self.asked.saturating_add(bytes.len() as u64);
        match write_out(&mut self.writer, bytes) {
            Ok(()) => Ok(()),
            Err(_) => {
                self.faults = self.faults.saturating_add(1);
                Err(WriteFault::Failed)
            }
        }
    }
}
