ghost use Rattle.std.specs.Prelude.{◌≡◌, true, false, length};
ghost use Rattle.fly_app.specs.Outside.{outside};
ghost use Rattle.fly_app.specs.Answers.{RunsCommand};
ghost use Rattle.fly_app.specs.RunAnswers.{RunsByFirst};
ghost use Rattle.fly_app.specs.RunWords as words_of_run;

use crate::run_line::run_line;
use crate::run_words::is_run_line;
use crate::{Status, plain};
use fly_ports::{Clock, Files, Gate, Hand, Sink, Spawner};
use fly_types::Text;
use std::alloc::Global;
use std::sync::Wait;
use std::thread::Threads;

/// The whole program: runs the command that the words of the command line are, and answers its exit status. What
/// it prints goes to `out`, and why there is nothing to print to `err`. The crew are the hands of the workers: `run`
/// has one, and the other commands have none.
pub fn flyte<
    R: Threads + Wait + Sync,
    F: Files,
    O: Sink,
    E: Sink,
    S: Spawner + Send,
    C: Clock + Send,
    G: Gate + Send,
>(
    rt: &R,
    alloc: Global,
    words: &[Text],
    files: &mut F,
    out: &mut O,
    err: &mut E,
    crew: &mut Vec<Hand<S, C, G>>,
) -> Status
    requires { length crew.old.items ≡ 8 }

    // What every command but `run` prints, where, and what stands after it. No hand of the crew does anything.
    ensures plain { words_of_run.is_run_line words.now ≡ false → RunsCommand words.now
        (outside (F.state files.old) (O.state out.old) (E.state err.old))
        (outside (F.state files.new) (O.state out.new) (E.state err.new)) result }
    ensures crew { words_of_run.is_run_line words.now ≡ false → crew.new ≡ crew.old }

    // What `run` does, prints and leaves.
    ensures run { words_of_run.is_run_line words.now ≡ true → RunsByFirst (λ hand. C.state hand.clock) (λ hand. S.state hand.spawner)
        words.now (outside (F.state files.old) (O.state out.old) (E.state err.old))
        (outside (F.state files.new) (O.state out.new) (E.state err.new)) crew.old.items crew.new.items result }
{
    if is_run_line(words) {
        return run_line(rt, alloc, words, files, out, err, &mut crew[0]);
    }
    plain(rt, alloc, words, files, out, err)
}
