ghost use Rattle.std.specs.Prelude.{◌≡◌, OnOk, OnErr, IfOk, is_ok};
ghost use Rattle.fly_ports.specs.Sink.{Writes, FailsToWrite};

use crate::room::add_within;
use crate::{Sink, WriteFault};
use fly_types::{List, NoMemory};
use std::alloc::Global;
use std::marker::Model;

/// A sink in memory, with room for a stated number of bytes in all.
#[derive(Debug, Drop)]
pub struct MemSink {
    written: Vec<u8>,
    room: u64,
    bad: List<u64>,
    calls: u64,
    asked: u64,
    faults: u64,
}

impl Model for MemSink {
    ghost use Rattle.std.specs.Prelude.{◌≤◌, vec_capacity};
    ghost use Rattle.fly_ports.specs.MemSink.{SinkMemory};

    ghost Value = { SinkMemory };

    ghost view = { λ s. record { written = s.written.items; room = s.room; bad = s.bad; calls = s.calls; asked = s.asked; faults = s.faults } };

    ghost invariant = { λ s. s.room ≤ vec_capacity s.written };
}

impl MemSink {
    ghost use Rattle.fly_ports.specs.MemSink.{new_sink};

    /// An empty sink. The calls of `put` whose numbers, from 1, are in `bad` fail and write nothing.
    /// A call that goes past the room writes what there is room for, and fails.
    pub fn make(alloc: Global, room: u64, bad: List<u64>) -> Result<MemSink, NoMemory>
        ensures { IfOk result (λ sink. sink ≡ new_sink room bad) }
    {
        let written = Vec::with_capacity(alloc, room as usize)?;
        Ok(MemSink {
            written,
            room,
            bad,
            calls: 0,
            asked: 0,
            faults: 0,
        })
    }

    /// All that was written.
    pub fn bytes(&self) -> &[u8]
        ensures { result.now ≡ self.now.written }
    {
        &self.written
    }

    /// How many bytes calls were asked to write.
    pub fn asked(&self) -> u64
        ensures { result ≡ self.now.asked }
    {
        self.asked
    }

    /// How many calls have failed.
    pub fn faults(&self) -> u64
        ensures { result ≡ self.now.faults }
    {
        self.faults
    }
}

impl Sink for MemSink {
    ghost use Rattle.fly_ports.specs.MemSink.{sink_state, takes_all, sink_after};

    ghost state = { sink_state };

    fn put(&mut self, bytes: &[u8]) -> Result<(), WriteFault>
        ensures ok { OnOk result (Writes (sink_state self.old) (sink_state self.new) bytes.now) }
        ensures err { OnErr result (FailsToWrite (sink_state self.old) (sink_state self.new) bytes.now) }
        ensures answer { is_ok result ≡ takes_all self.old bytes.now }
        ensures after { self.new ≡ sink_after self.old bytes.now }
    {
        self.calls = self.calls.saturating_add(1);
        self.asked = self.asked.saturating_add(bytes.len() as u64);
        let is_bad = self.bad.as_slice().contains(&self.calls);
        if !is_bad && add_within(&mut self.written, self.room, bytes) {
            Ok(())
        } else {
            self.faults = self.faults.saturating_add(1);
            Err(WriteFault::Failed)
        }
    }
}
