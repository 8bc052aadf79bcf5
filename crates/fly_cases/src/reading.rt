use crate::case::wants_memory;
use crate::content::Documents;
use anyhow::{Context, Result, bail};
use fly_docs::{Bundle, Submission};
use fly_idl::{DocFault, read_bundle, read_literal_map, read_submissions};
use fly_types::{List, NoMemory};
use fly_writers::write_literal_map;
use serde_json::Value;
use std::alloc::Global;
use std::io::{self, Write};

/// What the reading of a document came to: a bundle or submissions, literals as they are written, or the first fault.
#[derive(Drop)]
enum Answer {
    Bundle,
    Submissions(List<Submission>),
    /// A copy of what was read is not the same.
    Differs,
    Literals(Vec<u8>),
    Fault(DocFault),
}

impl Answer {
    /// Prints the answer behind the name of its case.
    fn print<W: Write>(&self, name: &str, writer: &mut W) -> io::Result<()> {
        write!(writer, "{name}: ")?;
        match self {
            Answer::Bundle => writeln!(writer, "a bundle"),
            Answer::Submissions(submissions) => print_names(submissions.as_slice(), writer),
            Answer::Differs => writeln!(writer, "a copy that differs"),
            Answer::Literals(text) => {
                writer.write_all(text)?;
                writeln!(writer)
            }
            Answer::Fault(fault) => {
                let kind = fault.kind;
                let place = fault.place.as_str();
                writeln!(writer, "{kind:?} {place}")
            }
        }
    }
}

/// Prints the names of submissions, and how many inputs each has.
fn print_names<W: Write>(submissions: &[Submission], writer: &mut W) -> io::Result<()> {
    write!(writer, "submissions")?;
    for submission in submissions {
        let name = submission.name.as_str();
        let count = submission.inputs.entries.len();
        write!(writer, " {name} {count}")?;
    }
    writeln!(writer)
}

/// A copy of the bundle is the same.
fn copies(alloc: Global, bundle: &Bundle) -> Result<bool, NoMemory> {
    Ok(bundle.copy(alloc)? == *bundle)
}

fn bundle_answer(alloc: Global, bytes: &[u8]) -> Result<Answer, NoMemory> {
    match read_bundle(alloc, bytes) {
        Ok(bundle) if copies(alloc, &bundle)? => Ok(Answer::Bundle),
        Ok(_) => Ok(Answer::Differs),
        Err(fault) => Ok(Answer::Fault(fault)),
    }
}

fn submissions_answer(alloc: Global, bytes: &[u8]) -> Result<Answer, NoMemory> {
    match read_submissions(alloc, bytes) {
        Ok(submissions) if submissions.copy(alloc)? == submissions => {
            Ok(Answer::Submissions(submissions))
        }
        Ok(_) => Ok(Answer::Differs),
        Err(fault) => Ok(Answer::Fault(fault)),
    }
}

fn literals_answer(alloc: Global, bytes: &[u8]) -> Result<Answer, NoMemory> {
    match read_literal_map(alloc, bytes) {
        Ok(literals) => Ok(Answer::Literals(write_literal_map(alloc, &literals)?)),
        Err(fault) => Ok(Answer::Fault(fault)),
    }
}

/// What these bytes come to, read as what `kind` names: a `bundle`, `submissions` or `literals`.
fn read_as(alloc: Global, kind: Option<&str>, bytes: &[u8]) -> Result<Answer> {
    match kind {
        Some("bundle") => bundle_answer(alloc, bytes).map_err(wants_memory),
        Some("submissions") => submissions_answer(alloc, bytes).map_err(wants_memory),
        Some("literals") => literals_answer(alloc, bytes).map_err(wants_memory),
        _ => bail!("a case that reads no document"),
    }
}

/// Reads the document that a line has under `bytes`, as what stands under `read`, and prints what that came to.
pub fn read_document<W: Write>(
    alloc: Global,
    documents: &Documents,
    line: &Value,
    writer: &mut W,
) -> Result<()> {
    let name = line
        .get("case")
        .and_then(Value::as_str)
        .context("a case without a name")?;
    let bytes = documents.content(alloc, line.get("bytes").context("a case without bytes")?)?;
    let kind = line.get("read").and_then(Value::as_str);
    read_as(alloc, kind, bytes.as_bytes())?.print(name, writer)?;
    Ok(())
}
