ghost use Rattle.std.specs.Prelude.{◌≡◌, ◌≤◌, ◌++◌, ◌∷◌, [], IfOk, OnOk, OnErr, length, option_map, bytes_eq};
ghost use Rattle.std.specs.List.{find};
ghost use Rattle.fly_ports.specs.Spawner.{RunsProgram, run_of};
ghost use Rattle.fly_ports.specs.TableSpawner.{short_end, answer_of as answer_by_name, IsDue};
ghost use Rattle.fly_ports.specs.declared.spawner.TheConstants.{MAX_OUTPUT};

use crate::room::front_past;
use crate::{Ended, MAX_OUTPUT, Run, SpawnFault, Spawner};
use fly_types::{Bytes, List, NoMemory, Text};
use std::alloc::Global;
use std::marker::Model;

/// A spawner in memory, which answers by the name of the run.
#[derive(Debug, Drop)]
pub struct TableSpawner {
    answers: List<(Text, Ended)>,
    bad: List<u64>,
    runs: Vec<Run>,
    calls: u64,
    faults: u64,
}

impl Model for TableSpawner {
    ghost use Rattle.fly_ports.specs.TableSpawner.{SpawnerMemory};

    ghost Value = { SpawnerMemory };

    ghost view = { λ s. record { answers = s.answers; bad = s.bad; runs = s.runs.items; calls = s.calls; faults = s.faults } };
}

impl TableSpawner {
    ghost use Rattle.fly_ports.specs.TableSpawner.{new_spawner};

    /// Each run has the answer of the first pair with its name, with at most the first [`MAX_OUTPUT`]
    /// bytes of its output. The calls whose numbers, from 1, are in `bad` fail, and so does a run whose
    /// name no pair has. A call that answers for want of memory isn't counted.
    pub fn make(alloc: Global, answers: List<(Text, Ended)>, bad: List<u64>) -> TableSpawner
        ensures { result ≡ new_spawner answers bad }
    {
        TableSpawner {
            answers,
            bad,
            runs: Vec::new(alloc),
            calls: 0,
            faults: 0,
        }
    }

    /// The runs so far.
    pub fn runs(&self) -> &[Run]
        ensures { result.now ≡ self.now.runs }
    {
        &self.runs
    }

    /// How many runs have failed.
    pub fn faults(&self) -> u64
        ensures { result ≡ self.now.faults }
    {
        self.faults
    }
}

/// The end with the first bytes of its output, as many as are kept.
fn shorten(alloc: Global, ended: &Ended) -> Result<Ended, NoMemory>
    ensures end { IfOk result (λ short. short ≡ short_end ended.now) }
    ensures bound { IfOk result (λ short. length short.out ≤ MAX_OUTPUT) }
{
    let out = front_past(ended.out.as_slice(), MAX_OUTPUT as u64 - 1);
    Ok(Ended {
        status: ended.status,
        out: Bytes::from_vec(Vec::from_slice(alloc, out)?),
    })
}

/// The first pair with this name.
fn pair_of<'a>(answers: &'a [(Text, Ended)], name: &str) -> Option<&'a (Text, Ended)>
    ensures { option_map (λ r. r.now) result ≡ find (λ pair. bytes_eq pair.0 name.now) answers.now }
{
    answers.iter().find(|pair| pair.0.as_str() == name)
}

/// The answer of the first pair with this name.
fn answer_of(alloc: Global, answers: &[(Text, Ended)], name: &str) -> Result<Ended, SpawnFault>
    ensures answer { IsDue result (answer_by_name answers.now name.now) }
    ensures bound { IfOk result (λ ended. length ended.out ≤ MAX_OUTPUT) }
{
    match pair_of(answers, name) {
        Some(pair) => Ok(shorten(alloc, &pair.1)?),
        None => Err(SpawnFault::Failed),
    }
}

/// Adds a run with copies of these.
fn note(
    alloc: Global,
    runs: &mut Vec<Run>,
    name: &Text,
    words: &List<Text>,
    input: &[u8],
    answer: &Result<Ended, SpawnFault>,
) -> Result<(), NoMemory>
    ensures ok { OnOk result (runs.new.items ≡ runs.old.items ++ run_of name.now words.now input.now answer.now ∷ []) }
    ensures err { OnErr result (runs.new.items ≡ runs.old.items) }
{
    let run = Run::of(alloc, name, words, input, answer)?;
    Ok(runs.push(run)?)
}

impl Spawner for TableSpawner {
    ghost use Rattle.fly_ports.specs.TableSpawner.{spawner_state, next_answer, spawner_after};

    ghost state = { spawner_state };

    fn run(
        &mut self,
        alloc: Global,
        name: &Text,
        words: &List<Text>,
        input: &[u8],
    ) -> Result<Ended, SpawnFault>
        ensures answer { RunsProgram (spawner_state self.old) (spawner_state self.new) name.now words.now input.now result }
        ensures bound { IfOk result (λ ended. length ended.out ≤ MAX_OUTPUT) }
        ensures due { IsDue result (next_answer self.old name.now) }
        ensures after { self.new ≡ spawner_after self.old name.now words.now input.now result }
    {
        let number = self.calls.saturating_add(1);
        let answer = if self.bad.as_slice().contains(&number) {
            Err(SpawnFault::Failed)
        } else {
            answer_of(alloc, self.answers.as_slice(), name.as_str())
        };
        if let Err(SpawnFault::NoMemory) = answer {
            return Err(SpawnFault::NoMemory);
        }
        note(alloc, &mut self.runs, name, words, input, &answer)?;
        self.calls = number;
        if answer.is_err() {
            self.faults = self.faults.saturating_add(1);
        }
        answer
    }
}
