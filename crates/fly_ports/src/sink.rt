ghost use Rattle.std.specs.Prelude.{OnOk, OnErr};
ghost use Rattle.fly_ports.specs.Sink.{SinkState, Writes, FailsToWrite};

use crate::WriteFault;

/// Takes bytes one way: a standard stream, or a list in memory.
pub trait Sink {
    /// What was written so far, where the sink tells it, and how many writes have failed.
    ghost state: { Self → SinkState };

    /// Writes all the bytes. A write that fails has passed on a first part of them.
    fn put(&mut self, bytes: &[u8]) -> Result<(), WriteFault>
        ensures ok { OnOk result (Writes (state self.old) (state self.new) bytes.now) }
        ensures err { OnErr result (FailsToWrite (state self.old) (state self.new) bytes.now) };
}
