ghost use Rattle.std.specs.Prelude.{◌≤◌, List, ℕ};
ghost use Rattle.fly_ports.specs.Files.{FilesState};
ghost use Rattle.fly_app.specs.Outside.{outside};
ghost use Rattle.fly_app.specs.Answers.{HasDone, RunsCommand};
ghost use Rattle.fly_app.specs.Words.{IsCompile, IsMake};
ghost use Rattle.fly_generator.specs.Generated.{most_nodes};

use crate::Status;
use crate::compiling::closure_line_of_file;
use crate::help::{HELP, VERSION};
use crate::printing::{out_of_memory, print, say, unread_line, usage_line};
use crate::reading::Unanswered;
use crate::words::{Command, read_words};
use fly_make::make_summary;
use fly_ports::{Files, Sink};
use fly_types::{NoMemory, Text};
use std::alloc::Global;

/// Prints the closure of the bundle in a file, or says why there is none.
fn compile<F: Files, O: Sink, E: Sink>(
    alloc: Global,
    path: &str,
    files: &mut F,
    out: &mut O,
    err: &mut E,
) -> Status
    ensures { (words : List (List ℕ)) → IsCompile words path.now
        → HasDone words (outside (F.state files.old) (O.state out.old) (E.state err.old))
        (outside (F.state files.new) (O.state out.new) (E.state err.new)) result }
{
    match closure_line_of_file(alloc, files, path) {
        Ok(text) => print(out, err, &text),
        Err(Unanswered::Refused(lines)) => say(err, Ok(lines), Status::Refused),
        Err(Unanswered::Unread(path)) => say(err, unread_line(alloc, path), Status::ReadFault),
        Err(Unanswered::NoMemory) => out_of_memory(err),
    }
}

/// Prints how a run of the generated workflow of so many nodes ended.
fn make<R, O: Sink, E: Sink>(rt: &R, alloc: Global, count: u32, out: &mut O, err: &mut E) -> Status
    requires some { 1 ≤ count }
    requires few { count ≤ most_nodes }
    ensures { (words : List (List ℕ)) (files : FilesState) → IsMake words count
        → HasDone words (outside files (O.state out.old) (E.state err.old))
        (outside files (O.state out.new) (E.state err.new)) result }
{
    match make_summary(rt, alloc, count) {
        Ok(text) => print(out, err, text.as_bytes()),
        Err(NoMemory) => out_of_memory(err),
    }
}

/// Runs the command that the words are, or says why they are none.
fn run<R, F: Files, O: Sink, E: Sink>(
    rt: &R,
    alloc: Global,
    words: &[Text],
    files: &mut F,
    out: &mut O,
    err: &mut E,
) -> Status
    ensures { HasDone words.now (outside (F.state files.old) (O.state out.old) (E.state err.old))
        (outside (F.state files.new) (O.state out.new) (E.state err.new)) result }
{
    match read_words(words) {
        Ok(Command::Compile(path)) => compile(alloc, path, files, out, err),
        Ok(Command::Make(count)) => make(rt, alloc, count, out, err),
        Ok(Command::Help) => print(out, err, HELP.as_bytes()),
        Ok(Command::Version) => print(out, err, VERSION.as_bytes()),
        Err(word) => say(err, usage_line(alloc, word), Status::Usage),
    }
}

/// Runs a command that starts no program. What it prints goes to `out`, and why there is nothing to print to `err`.
pub fn plain<R, F: Files, O: Sink, E: Sink>(
    rt: &R,
    alloc: Global,
    words: &[Text],
    files: &mut F,
    out: &mut O,
    err: &mut E,
) -> Status
    ensures { RunsCommand words.now (outside (F.state files.old) (O.state out.old) (E.state err.old))
        (outside (F.state files.new) (O.state out.new) (E.state err.new)) result }
{
    run(rt, alloc, words, files, out, err)
}
