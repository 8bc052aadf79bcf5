//! Runs cases that are data: each line of standard input is one JSON object. It is a document that later lines name; or
//! a case, whose words are run by the top call over files, streams and children in memory; or a document that is read;
//! or a bundle that is compiled; or a run that is driven; or a call of one function. What each came to is printed.
//!
//! A bundle stands under `compile`, in a form of this program's own from which it is built without the reader of
//! documents, so that a case has whatever a bundle may have. A list that is empty may be left out.
//!
//! - BUNDLE: `tasks`, `workflows`, and the name of the `primary` workflow. An identifier is its name alone.
//! - TASK: `id`, `takes`, `gives`, `command`, `args`, `retries`.
//! - WORKFLOW: `id`, `takes`, `gives`, `nodes`, and the bindings of its `outputs`.
//! - `takes` and `gives` list `[NAME, TYPE]`. TYPE is the name of a simple type, or a `LiteralType` in JSON.
//! - NODE: `id`, the bindings of its `inputs`, the ids `upstream`, `retries`, and what it runs: the name of a `task`, of a
//!   `workflow`, or of an `array`'s task, which may have `minSuccesses`; or `cases`, which list `[CONDITION, NODE]` with
//!   null for no condition, with the node of `else` or the text of `error`. A node of a workflow that has `times` stands
//!   so many times, with its number, from 0, behind its id.
//! - Bindings list `[NAME, BOUND]`. BOUND is a promise `"NODE.NAME"`, a list of BOUND, `{"map": [[NAME, BOUND], ..]}` or a
//!   VALUE.
//! - VALUE: a whole number, a truth value, `{"text": TEXT}`, or `{"literal": LITERAL}` with a `Literal` in JSON.
//! - CONDITION: `[OPERAND, OPERATOR, OPERAND]`, or with AND or OR conditions beside it. OPERAND is the name of an input or
//!   a VALUE.
//!
//! It prints the faults, or that the bundle compiles or is not in form, or where `closure` is true the closure.
#![tactic(auto)]

mod bounds;
mod bundle;
mod calls;
mod case;
mod compiling;
mod conditions;
mod content;
mod driving;
mod hands;
mod messages;
mod nodes;
mod outcome;
mod reading;

use anyhow::{Context, Result, bail};
use calls::make_call;
use case::Case;
use compiling::compile_bundle;
use content::Documents;
use driving::drive_run;
use hands::HANDS;
use outcome::Outcome;
use reading::read_document;
use serde_json::Value;
use std::alloc::Global;
use std::io::{BufRead, BufReader, BufWriter, Write};
use std::sync::Wait;
use std::thread::Threads;

/// Runs the case, and says what it came to.
fn run<R: Threads + Wait + Sync>(rt: &R, alloc: Global, case: Case) -> Result<Outcome> {
    let Case {
        name,
        words,
        mut files,
        before,
        mut out,
        mut err,
        mut crew,
    } = case;
    if crew.len() != HANDS {
        bail!("a crew of another size");
    }
    let status = fly_app::flyte(rt, alloc, &words, &mut files, &mut out, &mut err, &mut crew);
    Ok(Outcome {
        name,
        status,
        out,
        err,
        files,
        before,
        crew,
    })
}

fn main(rt: HostRuntime) -> Result<()> {
    let alloc = rt.alloc();
    let mut documents = Documents::new(alloc);
    let mut writer = BufWriter::new(alloc, std::io::writer(&rt))?;
    for line in BufReader::new(alloc, rt.reader())?.lines(alloc) {
        let line = line?;
        if line.is_empty() {
            continue;
        }
        let value = Value::from_str(alloc, line.as_str()).context("a line of the cases")?;
        if let Some(name) = value.get("document").and_then(Value::as_str) {
            documents.add(alloc, name, &value)?;
        } else if value.get("read").is_some() {
            read_document(alloc, &documents, &value, &mut writer)?;
        } else if value.get("compile").is_some() {
            compile_bundle(alloc, &value, &mut writer)?;
        } else if value.get("drive").is_some() {
            drive_run(&rt, alloc, &documents, &value, &mut writer)?;
        } else if value.get("call").is_some() {
            make_call(alloc, &value, &mut writer)?;
        } else {
            let case = Case::read(alloc, &documents, &value)?;
            run(&rt, alloc, case)?.print(&mut writer)?;
        }
    }
    writer.flush()?;
    Ok(())
}
