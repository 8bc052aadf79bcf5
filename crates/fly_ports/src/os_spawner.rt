ghost use Rattle.std.specs.Prelude.{◌≡◌, ◌≤◌, ◌++◌, [], IfOk, IfSome, OnOk, Err, length, take};
ghost use Rattle.fly_ports.specs.OsSpawner.{StartsWords};
ghost use Rattle.fly_ports.specs.declared.spawner.TheConstants.{MAX_OUTPUT};
ghost use Rattle.fly_ports.specs.declared.faults.SpawnFault.TheVariants.{Failed as failed};

use crate::system::write_out;
use crate::{Ended, MAX_OUTPUT, SpawnFault, Spawner};
use fly_types::{Bytes, List, NoMemory, Text};
use std::alloc::Global;
use std::io::{ErrorKind, Read, Write};
use std::process::{Child, Command, Processes, Stdio, SystemProcess};
use std::thread::Threads;
use std::{io, thread};

/// How often the output of one program is read at most.
const MAX_READS: u64 = 1 << 40;

/// How many bytes one read takes at most.
const READ_SIZE: usize = 8_192;

/// The programs of the system. Each gets its words as they are, read by no shell, and has this process's
/// environment, working folder and standard error. No runs are told, and each failure is counted.
#[derive(Drop)]
pub struct OsSpawner<'r, R> {
    runtime: &'r R,
    faults: u64,
}

impl<'r, R: Processes<Started = SystemProcess> + Threads> OsSpawner<'r, R> {
    ghost use Rattle.fly_ports.specs.OsSpawner.{faults};

    pub fn make(runtime: &'r R) -> OsSpawner<'r, R>
        ensures { faults result ≡ 0 }
    {
        OsSpawner { runtime, faults: 0 }
    }

    /// How many runs have failed.
    pub fn faults(&self) -> u64
        ensures { result ≡ faults self.now }
    {
        self.faults
    }
}

fn spawn_fault(error: io::Error) -> SpawnFault {
    match error.kind() {
        ErrorKind::OutOfMemory => SpawnFault::NoMemory,
        _ => SpawnFault::Failed,
    }
}

/// The first word as a program, with the others as its arguments, and with pipes for its input and output.
fn command_of(alloc: Global, words: &[Text]) -> Result<Command, SpawnFault>
    ensures words { IfOk result (λ command. StartsWords command words.now) }
    ensures wordless { words.now ≡ [] → result ≡ Err failed }
{
    let [program, others @ ..] = words else {
        return Err(SpawnFault::Failed);
    };
    let mut command = Command::new(alloc, program.as_str()).map_err(NoMemory::from)?;
    for word in others {
        command.arg(word.as_str()).map_err(NoMemory::from)?;
    }
    command.stdin(Stdio::piped()).stdout(Stdio::piped());
    Ok(command)
}

/// Writes a program's input and closes it. A program that has closed it before its end is no fault.
fn feed<I: Write + Drop>(mut end: I, input: &[u8]) -> Result<(), SpawnFault> {
    match write_out(&mut end, input) {
        Ok(()) => Ok(()),
        Err(error) if error.kind() == ErrorKind::BrokenPipe => Ok(()),
        Err(error) => Err(spawn_fault(error)),
    }
}

/// Adds what there is room for among the bytes of output that are kept.
fn keep(kept: &mut Vec<u8>, bytes: &[u8]) -> Result<(), NoMemory>
    requires { length kept.old.items ≤ MAX_OUTPUT }
    ensures { OnOk result (kept.new.items ≡ take MAX_OUTPUT (kept.old.items ++ bytes.now)) }
{
    let room = MAX_OUTPUT - kept.len();
    let count = bytes.len().min(room);
    Ok(kept.extend_from_slice(&bytes[..count])?)
}

/// The first bytes of a program's output, which is read to its end and closed. It fails where the end
/// doesn't come within `MAX_READS` reads.
fn read_output<O: Read + Drop>(alloc: Global, mut end: O) -> Result<Vec<u8>, SpawnFault>
    ensures bytes { IfOk result (λ kept. IfSome (O.remaining end) (λ left. kept.items ≡ take MAX_OUTPUT left)) }
    ensures bound { IfOk result (λ kept. length kept.items ≤ MAX_OUTPUT) }
{
    let mut kept = Vec::new(alloc);
    let mut buffer = [0u8; READ_SIZE];
    for _ in 0..MAX_READS {
        match end.read(&mut buffer) {
            Ok(0) => return Ok(kept),
            Ok(count) => keep(&mut kept, &buffer[..count])?,
            Err(error) if error.kind() == ErrorKind::Interrupted => {}
            Err(error) => return Err(spawn_fault(error)),
        }
    }
    Err(SpawnFault::Failed)
}

/// What a program writes while it is fed, so that neither side waits for the other to be done. Where no
/// second thread can be made it is fed first.
fn exchange(
    runtime: &impl Threads,
    alloc: Global,
    child: &mut Child,
    input: &[u8],
) -> Result<Vec<u8>, SpawnFault>
    ensures { IfOk result (λ kept. length kept.items ≤ MAX_OUTPUT) }
{
    let (Some(to), Some(from)) = (child.stdin.take(), child.stdout.take()) else {
        return Err(SpawnFault::Failed);
    };
    let (output, fed) = thread::join(
        runtime,
        move || read_output(alloc, from),
        move || feed(to, input),
    );
    fed?;
    output
}

/// How a program with these words and this input ended.
fn end_of<R: Processes<Started = SystemProcess> + Threads>(
    runtime: &R,
    alloc: Global,
    words: &[Text],
    input: &[u8],
) -> Result<Ended, SpawnFault>
    ensures wordless { words.now ≡ [] → result ≡ Err failed }
    ensures bound { IfOk result (λ ended. length ended.out ≤ MAX_OUTPUT) }
{
    let mut command = command_of(alloc, words)?;
    let mut child = command.spawn(runtime).map_err(spawn_fault)?;
    let output = exchange(runtime, alloc, &mut child, input);
    // It is waited for whatever came of its output.
    let status = child.wait().map_err(spawn_fault)?;
    Ok(Ended {
        status: status.code(),
        out: Bytes::from_vec(output?),
    })
}

impl<'r, R: Processes<Started = SystemProcess> + Threads> Spawner for OsSpawner<'r, R> {
    ghost use Rattle.fly_ports.specs.Spawner.{RunsProgram};
    ghost use Rattle.fly_ports.specs.OsSpawner.{spawner_state};

    ghost state = { spawner_state };

    fn run(
        &mut self,
        alloc: Global,
        name: &Text,
        words: &List<Text>,
        input: &[u8],
    ) -> Result<Ended, SpawnFault>
        ensures answer { RunsProgram (spawner_state self.old) (spawner_state self.new) name.now words.now input.now result }
        ensures bound { IfOk result (λ ended. length ended.out ≤ MAX_OUTPUT) }
        ensures wordless { words.now ≡ [] → result ≡ Err failed }
    {
        let _ = name;
        let answer = end_of(self.runtime, alloc, words.as_slice(), input);
        if let Err(SpawnFault::Failed) = answer {
            self.faults = self.faults.saturating_add(1);
        }
        answer
    }
}
