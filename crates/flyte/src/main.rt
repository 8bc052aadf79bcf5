//! The program `flyte`: the real files, streams, programs and clock, and the top call over them.
#![tactic(auto)]

ghost use Rattle.std.specs.Prelude.{◌≡◌, IfOk, vec_len};

use fly_app::{Status, flyte};
use fly_ports::{Hand, OpenGate, OsClock, OsFiles, OsSink, OsSpawner, Sink};
use fly_types::{NoMemory, Text};
use std::alloc::Global;
use std::env::{self, Env};
use std::process::{ExitCode, Processes, SystemProcess};
use std::rt::Clock;
use std::thread::Threads;

/// How many hands the crew has.
const HANDS: u64 = 8;

/// The words of the command line, without the program's name. Arguments that are no text are no words, so the
/// usage is told.
fn words(alloc: Global, rt: &(impl Env + AllocGlobal)) -> Result<Vec<Text>, NoMemory> {
    let mut words = Vec::new(alloc);
    if let Ok(arguments) = env::args(rt) {
        for word in arguments.skip(1) {
            words.push(Text::from_string(word))?;
        }
    }
    Ok(words)
}

/// The hands of the workers, each with the programs and the clock of the system.
fn crew<R: Processes<Started = SystemProcess> + Threads + Clock>(
    alloc: Global,
    rt: &R,
) -> Result<Vec<Hand<OsSpawner<'_, R>, OsClock<'_, R>, OpenGate>>, NoMemory>
    ensures { IfOk result (λ crew. vec_len crew ≡ 8) }
{
    let mut crew = Vec::new(alloc);
    for _ in 0..HANDS {
        crew.push(Hand {
            spawner: OsSpawner::make(rt),
            clock: OsClock::make(rt),
            gate: OpenGate,
        })?;
    }
    Ok(crew)
}

fn main(rt: HostRuntime) -> ExitCode {
    let alloc = rt.alloc();
    let mut files = OsFiles::make(&rt);
    let mut out = OsSink::make(rt.stdout());
    let mut err = OsSink::make(rt.stderr());
    let (Ok(words), Ok(mut crew)) = (words(alloc, &rt), crew(alloc, &rt)) else {
        let _ = err.put(b"out of memory\n");
        return ExitCode::from(Status::NoMemory as u8);
    };
    let status = flyte(
        &rt, alloc, &words, &mut files, &mut out, &mut err, &mut crew,
    );
    ExitCode::from(status as u8)
}
