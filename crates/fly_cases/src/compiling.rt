use crate::bundle::bundle;
use crate::calls::text_under;
use crate::case::wants_memory;
use anyhow::{Context, Result};
use fly_compile::{CompileFault, Fault, compile};
use fly_docs::{Bundle, Closure};
use fly_forms::is_bundle_in_form;
use fly_types::{List, NoMemory};
use fly_writers::write_closure;
use serde_json::Value;
use std::alloc::Global;
use std::io::{self, Write};

/// What compiling a bundle came to.
#[derive(Drop)]
enum Answer {
    NotInForm,
    Faults(List<Fault>),
    Compiles,
    /// The closure, as it is written.
    Closure(Vec<u8>),
}

impl Answer {
    /// Prints the answer behind the name of its case, and each fault on a line of its own.
    fn print<W: Write>(&self, name: &str, writer: &mut W) -> io::Result<()> {
        match self {
            Answer::NotInForm => writeln!(writer, "{name}: not in form"),
            Answer::Compiles => writeln!(writer, "{name}: compiles"),
            Answer::Closure(text) => {
                write!(writer, "{name}: ")?;
                writer.write_all(text)?;
                writeln!(writer)
            }
            Answer::Faults(faults) => {
                for fault in faults.as_slice() {
                    print_fault(name, fault, writer)?;
                }
                Ok(())
            }
        }
    }
}

fn print_fault<W: Write>(name: &str, fault: &Fault, writer: &mut W) -> io::Result<()> {
    let code = fault.code;
    let place = fault.place.as_str();
    write!(writer, "{name}: {code:?} {place}")?;
    if !fault.detail.is_empty() {
        let detail = fault.detail.as_str();
        write!(writer, " {detail}")?;
    }
    writeln!(writer)
}

fn closure_answer(alloc: Global, closure: &Closure, is_wanted: bool) -> Result<Answer, NoMemory> {
    if is_wanted {
        Ok(Answer::Closure(write_closure(alloc, closure)?))
    } else {
        Ok(Answer::Compiles)
    }
}

fn compiled(alloc: Global, bundle: &Bundle, is_closure_wanted: bool) -> Result<Answer, NoMemory> {
    if !is_bundle_in_form(bundle) {
        return Ok(Answer::NotInForm);
    }
    match compile(alloc, bundle) {
        Ok(closure) => closure_answer(alloc, &closure, is_closure_wanted),
        Err(CompileFault::Refused(faults)) => Ok(Answer::Faults(faults)),
        Err(CompileFault::NoMemory) => Err(NoMemory),
    }
}

/// Compiles the bundle that a line has under `compile`, and prints what that came to: its faults, or the closure where
/// the line wants it (`closure`).
pub fn compile_bundle<W: Write>(alloc: Global, line: &Value, writer: &mut W) -> Result<()> {
    let name = text_under(line, "case")?;
    let form = line.get("compile").context("a case without a bundle")?;
    let bundle = bundle(alloc, form)?;
    let is_closure_wanted = line
        .get("closure")
        .and_then(Value::as_bool)
        .unwrap_or(false);
    compiled(alloc, &bundle, is_closure_wanted)
        .map_err(wants_memory)?
        .print(name, writer)?;
    Ok(())
}
