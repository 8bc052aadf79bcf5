//! The command `run`.
ghost use Rattle.std.specs.Prelude.{◌≡◌, ◌≤◌, true, List, ℕ};
ghost use Rattle.fly_app.specs.Accepting.{IsReady};
ghost use Rattle.fly_app.specs.GivenWords.{run_request_of};
ghost use Rattle.fly_app.specs.Outside.{outside};
ghost use Rattle.fly_app.specs.RunAnswers.{HasDoneRun, RunsRun};
ghost use Rattle.fly_app.specs.Running.{RunsAccepted, setup_for};
ghost use Rattle.fly_app.specs.RunOutside.{run_outside};
ghost use Rattle.fly_app.specs.RunWords.{IsRun, is_run_line};

use crate::Status;
use crate::accepting::{Accepted, accept};
use crate::printing::{cannot_write, out_of_memory, say, unread_line, usage_line};
use crate::reading::Unanswered;
use crate::run_words::{RunWords, read_run};
use crate::running::{print_report, run_accepted};
use fly_ports::{Clock, Files, Gate, Hand, Sink, Spawner};
use fly_types::Text;
use fly_work::DriveFault;
use std::alloc::Global;

/// Runs what was accepted for a request, and prints its report.
fn run_and_report<R, F: Files, O: Sink, E: Sink, S: Spawner, C: Clock, G: Gate>(
    rt: &R,
    alloc: Global,
    request: &RunWords<'_>,
    accepted: Accepted,
    files: &mut F,
    out: &mut O,
    err: &mut E,
    hand: &mut Hand<S, C, G>,
) -> Status
    requires ready { IsReady accepted }
    requires lag { request.now.lag ≤ 16 }
    ensures { RunsAccepted (setup_for accepted (run_request_of request.now))
        (run_outside (outside (F.state files.old) (O.state out.old) (E.state err.old))
        (C.state hand.old.clock) (S.state hand.old.spawner))
        (run_outside (outside (F.state files.new) (O.state out.new) (E.state err.new))
        (C.state hand.new.clock) (S.state hand.new.spawner)) result }
{
    let Accepted {
        plan,
        hash,
        submissions,
    } = accepted;
    match run_accepted(
        rt,
        alloc,
        &plan,
        hash,
        submissions,
        files,
        request.journal,
        hand,
        request.lag,
    ) {
        Ok(world) => print_report(alloc, &plan, &world, out, err),
        Err(DriveFault::Keep) => cannot_write(err),
        Err(DriveFault::NoMemory) => out_of_memory(err),
    }
}

/// Makes the run that is asked for, or says why it does not begin.
fn run<R, F: Files, O: Sink, E: Sink, S: Spawner, C: Clock, G: Gate>(
    rt: &R,
    alloc: Global,
    request: &RunWords<'_>,
    files: &mut F,
    out: &mut O,
    err: &mut E,
    hand: &mut Hand<S, C, G>,
) -> Status
    requires { request.now.lag ≤ 16 }
    ensures { (words : List (List ℕ)) → IsRun words (run_request_of request.now) → HasDoneRun words
        (run_outside (outside (F.state files.old) (O.state out.old) (E.state err.old))
        (C.state hand.old.clock) (S.state hand.old.spawner))
        (run_outside (outside (F.state files.new) (O.state out.new) (E.state err.new))
        (C.state hand.new.clock) (S.state hand.new.spawner)) result }
{
    match accept(alloc, files, request) {
        Ok(accepted) => run_and_report(rt, alloc, request, accepted, files, out, err, hand),
        Err(Unanswered::Refused(lines)) => say(err, Ok(lines), Status::Refused),
        Err(Unanswered::Unread(path)) => say(err, unread_line(alloc, path), Status::ReadFault),
        Err(Unanswered::NoMemory) => out_of_memory(err),
    }
}

/// Does what a command line of `run` asks for, by one worker, or says which word is wrong.
pub(crate) fn run_line<R, F: Files, O: Sink, E: Sink, S: Spawner, C: Clock, G: Gate>(
    rt: &R,
    alloc: Global,
    words: &[Text],
    files: &mut F,
    out: &mut O,
    err: &mut E,
    hand: &mut Hand<S, C, G>,
) -> Status
    requires { is_run_line words.now ≡ true }
    ensures { RunsRun words.now
        (run_outside (outside (F.state files.old) (O.state out.old) (E.state err.old))
        (C.state hand.old.clock) (S.state hand.old.spawner))
        (run_outside (outside (F.state files.new) (O.state out.new) (E.state err.new))
        (C.state hand.new.clock) (S.state hand.new.spawner)) result }
{
    match read_run(words) {
        Ok(request) => run(rt, alloc, &request, files, out, err, hand),
        Err(word) => say(err, usage_line(alloc, word), Status::Usage),
    }
}
