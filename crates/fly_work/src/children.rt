ghost use Rattle.std.specs.Prelude.{IfOk};
ghost use Rattle.fly_docs.specs.AttemptName.{name_text};
ghost use Rattle.fly_ports.specs.Spawner.{RunsProgram};
ghost use Rattle.fly_work.specs.Children.{child_words as words_of_child, IsHeard, IsHeardAt};
ghost use Rattle.fly_work.specs.Parts.{Hears};
ghost use Rattle.fly_writers.specs.Literals.{literal_map_text};

use fly_docs::print_name;
use fly_idl::read_said;
use fly_policy::{Heard, Outcome, outcome_of};
use fly_ports::{Ended, SpawnFault, Spawner};
use fly_templates::child_words;
use fly_types::NoMemory;
use fly_world::Work;
use fly_writers::write_literal_map;
use std::alloc::Global;

/// Runs the program of a claimed attempt, and hears what the attempt came to.
pub(crate) fn run_child<S: Spawner>(
    alloc: Global,
    spawner: &mut S,
    work: &Work,
) -> Result<Outcome, NoMemory>
    ensures { Hears (S.state spawner.old) (S.state spawner.new) work.now result }
{
    let answer = run_program(alloc, spawner, work);
    let heard = hear(alloc, answer)?;
    outcome_of(alloc, heard, &work.outputs)
}

/// Runs the program with the words of the work, the inputs put in for their templates, under the name of its attempt.
/// Hands it the inputs as JSON.
fn run_program<S: Spawner>(alloc: Global, spawner: &mut S, work: &Work) -> Result<Ended, SpawnFault>
    ensures { RunsProgram (S.state spawner.old) (S.state spawner.new) (name_text work.now.name) (words_of_child work.now)
        (literal_map_text work.now.inputs) result }
{
    let name = print_name(alloc, &work.name)?;
    let words = child_words(alloc, &work.words, &work.inputs)?;
    let input = write_literal_map(alloc, &work.inputs)?;
    spawner.run(alloc, &name, &words, input.as_slice())
}

/// What is heard of an answer of the spawner.
fn hear(alloc: Global, answer: Result<Ended, SpawnFault>) -> Result<Heard, NoMemory>
    ensures { IfOk result (IsHeard answer) }
{
    match answer {
        Ok(ended) => hear_end(alloc, &ended),
        Err(SpawnFault::Failed) => Ok(Heard::Fault),
        Err(SpawnFault::NoMemory) => Err(NoMemory),
    }
}

/// What is heard of the end of a program.
fn hear_end(alloc: Global, ended: &Ended) -> Result<Heard, NoMemory>
    ensures { IfOk result (IsHeardAt ended.now.status ended.now.out) }
{
    let Some(status) = ended.status else {
        return Ok(Heard::NoStatus);
    };
    let said = read_said(alloc, ended.out.as_slice(), status == 0)?;
    Ok(Heard::Ended { status, said })
}
