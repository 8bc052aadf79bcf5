ghost use Rattle.std.specs.Prelude.{◌≡◌, ◌≢◌, ◌≤◌, ◌<◌, ◌^◌, ◌∷◌, [], ◌++◌, ◌%◌, ◌+◌, ℕ, All, IfOk, IfSome, OnOk, OnErr, length};
ghost use Rattle.fly_ports.specs.Spawner.{RunsProgram, run_of};
ghost use Rattle.fly_ports.specs.declared.spawner.TheConstants.{MAX_OUTPUT};
ghost use Rattle.fly_writers.specs.Literals.{literal_map_text};
ghost use Rattle.fly_generator.specs.Adder as words;
ghost use Rattle.fly_generator.specs.Adder.{adder_state};

use fly_idl::{DocFault, DocKind, read_literal_map};
use fly_ports::{Ended, Run, SpawnFault, Spawner};
use fly_readback::literal_maps_are_read_back;
use fly_types::{Bytes, List, Literal, LiteralMap, NoMemory, Text};
use fly_writers::write_literal_map;
use std::alloc::Global;
use std::marker::Model;

/// Sums are taken modulo this.
const SUM_LIMIT: u64 = 1_000_000;

/// A spawner in memory. A child that is handed whole numbers x and y, neither below 0, answers z, their sum modulo
/// 1,000,000; with any other input it ends with status 1. No run fails.
#[derive(Debug, Drop)]
pub struct Adder {
    runs: Vec<Run>,
}

impl Model for Adder {
    ghost use Rattle.fly_generator.specs.Adder.{IsAnswered};
    ghost use Rattle.fly_ports.specs.declared.spawner.Run.{Run};
    ghost use Rattle.std.specs.Prelude.{All, List};

    ghost Value = { List Run };

    ghost view = { λ a. a.runs.items };

    ghost invariant = { λ a. All IsAnswered a.runs.items };
}

impl Adder {
    /// An adder that was not called yet.
    pub fn make(alloc: Global) -> Adder
        ensures { result ≡ [] }
    {
        Adder {
            runs: Vec::new(alloc),
        }
    }

    /// The runs so far: each child that was handed two whole numbers has answered their sum.
    pub fn runs(&self) -> &[Run]
        ensures are { result.now ≡ self.now }
        ensures answered { All words.IsAnswered self.now }
        ensures sums { words.AreSums self.now }
    {
        literal_maps_are_read_back();
        &self.runs
    }
}

/// The two whole numbers that an input hands over.
fn summands(inputs: &LiteralMap) -> Option<(u64, u64)>
    ensures there { (x y : ℕ) → inputs.now ≡ words.summands x y → result ≡ Some (x, y) }
    ensures only { IfSome result (λ pair. inputs.now ≡ words.summands pair.0 pair.1) }
    ensures small { IfSome result (λ pair. (pair.0 < 2 ^ 63) × (pair.1 < 2 ^ 63)) }
{
    match inputs.entries.as_slice() {
        [(first, Literal::Integer(x)), (second, Literal::Integer(y))]
            if first.as_str() == "x" && second.as_str() == "y" => {
            Some((u64::try_from(*x).ok()?, u64::try_from(*y).ok()?))
        }
        _ => None,
    }
}

/// What a child writes of z.
fn outputs(alloc: Global, z: u64) -> Result<Bytes, NoMemory>
    requires { z < words.sum_limit }
    ensures is { IfOk result (λ out. out ≡ literal_map_text (words.output z)) }
    ensures bound { IfOk result (λ out. length out ≤ MAX_OUTPUT) }
{
    let mut entries = Vec::new(alloc);
    entries.push((Text::from_str(alloc, "z")?, Literal::Integer(z as i64)))?;
    let entries = List::from_vec(entries);
    let written = write_literal_map(alloc, &LiteralMap { entries })?;
    Ok(Bytes::from_vec(written))
}

/// How a child ends that is handed these literals.
fn end_of(alloc: Global, inputs: &LiteralMap) -> Result<Ended, NoMemory>
    ensures is { IfOk result (words.IsEndOf inputs.now) }
    ensures bound { IfOk result (λ ended. length ended.out ≤ MAX_OUTPUT) }
{
    match summands(inputs) {
        Some((x, y)) => Ok(Ended {
            status: Some(0),
            out: outputs(alloc, (x + y) % SUM_LIMIT)?,
        }),
        None => Ok(end_without(alloc)),
    }
}

fn end_without(alloc: Global) -> Ended
    ensures { result ≡ words.end_without }
{
    Ended {
        status: Some(1),
        out: Bytes::from_vec(Vec::new(alloc)),
    }
}

/// How a child ends that is handed these bytes.
fn answer(alloc: Global, input: &[u8]) -> Result<Ended, NoMemory>
    ensures is { IfOk result (words.IsAnswer input.now) }
    ensures bound { IfOk result (λ ended. length ended.out ≤ MAX_OUTPUT) }
{
    match read_literal_map(alloc, input) {
        Ok(inputs) => end_of(alloc, &inputs),
        Err(fault) => no_inputs(alloc, fault),
    }
}

/// How a child ends that is handed no document, but for want of memory.
fn no_inputs(alloc: Global, fault: DocFault) -> Result<Ended, NoMemory>
    ensures { IfOk result (λ ended. (ended ≡ words.end_without) × (fault.kind ≢ DocKind.NoMemory)) }
{
    if fault.kind == DocKind::NoMemory {
        return Err(NoMemory);
    }
    Ok(end_without(alloc))
}

/// The run of a child that ended, with copies of these.
fn run_with(
    alloc: Global,
    name: &Text,
    words: &List<Text>,
    input: &[u8],
    ended: &Ended,
) -> Result<Run, NoMemory>
    ensures { IfOk result (λ run. run ≡ run_of name.now words.now input.now (Ok ended.now)) }
{
    Ok(Run {
        name: name.copy(alloc)?,
        words: words.copy(alloc)?,
        input: Bytes::from_vec(Vec::from_slice(alloc, input)?),
        answer: Ok(ended.copy(alloc)?),
    })
}

fn note(runs: &mut Vec<Run>, run: Run) -> Result<(), NoMemory>
    ensures ok { OnOk result (runs.new.items ≡ runs.old.items ++ run ∷ []) }
    ensures err { OnErr result (runs.new.items ≡ runs.old.items) }
{
    Ok(runs.push(run)?)
}

impl Spawner for Adder {
    ghost use Rattle.fly_generator.specs.Adder.{adder_state};

    ghost state = { adder_state };

    fn run(
        &mut self,
        alloc: Global,
        name: &Text,
        words: &List<Text>,
        input: &[u8],
    ) -> Result<Ended, SpawnFault>
        ensures answer { RunsProgram (adder_state self.old) (adder_state self.new) name.now words.now input.now result }
        ensures bound { IfOk result (λ ended. length ended.out ≤ MAX_OUTPUT) }
    {
        let ended = answer(alloc, input)?;
        let run = run_with(alloc, name, words, input, &ended)?;
        note(&mut self.runs, run)?;
        Ok(ended)
    }
}
