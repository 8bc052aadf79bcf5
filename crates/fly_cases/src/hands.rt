use crate::case::{numbers, wants_memory};
use crate::content::Documents;
use anyhow::{Context, Result};
use fly_ports::{Clock, Ended, Hand, ListClock, OpenGate, Run, TableSpawner};
use fly_types::{Bytes, List, Text};
use serde_json::Value;
use std::alloc::Global;
use std::io::{self, Write};

/// How many hands a crew has.
pub const HANDS: usize = 8;

/// What a worker has of the outside, in memory.
pub type MemHand = Hand<TableSpawner, ListClock, OpenGate>;

/// The hand that a line says: the end of each child under `children`, by the name of its run, as its `status` and what
/// it wrote, `out`; the calls of the spawner that fail, numbered from 1, under `bad_runs`; and what the clock shows
/// under `clock`.
pub fn hand(alloc: Global, documents: &Documents, line: &Value) -> Result<MemHand> {
    let answers = children(alloc, documents, line.get("children"))?;
    let bad_runs = numbers(alloc, line.get("bad_runs"))?;
    Ok(Hand {
        spawner: TableSpawner::make(alloc, answers, bad_runs),
        clock: ListClock::make(moments(alloc, line.get("clock"))?),
        gate: OpenGate,
    })
}

/// The crew that a line says: its hand, and others without a child, whose clocks show 0 and then 1.
pub fn crew(alloc: Global, documents: &Documents, line: &Value) -> Result<Vec<MemHand>> {
    let mut crew = Vec::new(alloc);
    crew.push(hand(alloc, documents, line)?)?;
    for _ in 1..HANDS {
        crew.push(Hand {
            spawner: TableSpawner::make(
                alloc,
                List::from_vec(Vec::new(alloc)),
                List::from_vec(Vec::new(alloc)),
            ),
            clock: ListClock::make(List::from_vec(vec![in alloc; 0, 1]?)),
            gate: OpenGate,
        })?;
    }
    Ok(crew)
}

/// How the child of each run ends.
fn children(
    alloc: Global,
    documents: &Documents,
    children: Option<&Value>,
) -> Result<List<(Text, Ended)>> {
    let mut all = Vec::new(alloc);
    if let Some(children) = children.and_then(Value::as_object) {
        for (name, child) in children.iter() {
            let name = Text::from_str(alloc, name).map_err(wants_memory)?;
            all.push((name, ended(alloc, documents, child)?))?;
        }
    }
    Ok(List::from_vec(all))
}

/// How a child ends. One without a status has none, and one without an output has written nothing.
fn ended(alloc: Global, documents: &Documents, child: &Value) -> Result<Ended> {
    let status = match child.get("status").and_then(Value::as_i64) {
        Some(status) => Some(i32::try_from(status).ok().context("a status")?),
        None => None,
    };
    let out = match child.get("out") {
        Some(out) => documents.content(alloc, out)?,
        None => String::new(alloc),
    };
    let out = Bytes::from_vec(Vec::from_slice(alloc, out.as_bytes())?);
    Ok(Ended { status, out })
}

fn moments(alloc: Global, moments: Option<&Value>) -> Result<List<i64>> {
    let mut all = Vec::new(alloc);
    for moment in moments.and_then(Value::as_array).into_iter().flatten() {
        all.push(moment.as_i64().context("a moment")?)?;
    }
    Ok(List::from_vec(all))
}

/// Prints what a hand did: each run with its words and its input, how many runs failed, and what the clock shows next,
/// each of these two where it is not 0.
pub fn print_hand<W: Write>(writer: &mut W, hand: &mut MemHand) -> io::Result<()> {
    for run in hand.spawner.runs() {
        print_run(writer, run)?;
    }
    let faults = hand.spawner.faults();
    if faults != 0 {
        writeln!(writer, "  faults {faults}")?;
    }
    let moment = hand.clock.now();
    if moment != 0 {
        writeln!(writer, "  clock {moment}")?;
    }
    Ok(())
}

fn print_run<W: Write>(writer: &mut W, run: &Run) -> io::Result<()> {
    let name = run.name.as_str();
    writeln!(writer, "  run {name}")?;
    for word in run.words.as_slice() {
        let word = word.as_str();
        writeln!(writer, "  word {word}")?;
    }
    write!(writer, "  input ")?;
    writer.write_all(run.input.as_slice())?;
    writeln!(writer)
}
