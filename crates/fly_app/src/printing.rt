ghost use Rattle.std.specs.Prelude.{◌≡◌, ◌≢◌, ◌++◌, IfOk, OnOk, MatchResult, string_bytes};
ghost use Rattle.fly_ports.specs.Sink.{Tries};
ghost use Rattle.fly_schema.specs.declared.fault.DocKind.{DocKind};
ghost use Rattle.fly_app.specs.Printing.{PrintsText, SaysLine, no_memory_text, kind_name as name_of_kind, code_name as name_of_code, usage_text, document_line as line_of_document, fault_line as line_of_fault, fault_lines as lines_of_faults, unread_text, unwritten_text};
ghost use Rattle.fly_app.specs.RunRefusals.{not_empty_line as line_of_journal};

use crate::Status;
use fly_compile::{Code, Fault};
use fly_ports::Sink;
use fly_schema::DocKind;
use fly_types::NoMemory;
use std::alloc::Global;

/// What is tried where an answer can't be written.
const CANNOT_WRITE: &[u8; 13] = b"cannot write\n";

const OUT_OF_MEMORY: &[u8; 14] = b"out of memory\n";

fn kind_name(kind: DocKind) -> &'static str
    ensures { result.now ≡ name_of_kind kind }
{
    match kind {
        DocKind::NotJson => "NotJson",
        DocKind::FloatRefused => "FloatRefused",
        DocKind::WrongKind => "WrongKind",
        DocKind::Missing => "Missing",
        DocKind::LeftOut => "LeftOut",
        DocKind::TooDeep => "TooDeep",
        DocKind::TooLarge => "TooLarge",
        DocKind::NoMemory => "",
    }
}

fn code_name(code: Code) -> &'static str
    ensures { result.now ≡ name_of_code code }
{
    match code {
        Code::DuplicateId => "DuplicateId",
        Code::WorkflowNotFound => "WorkflowNotFound",
        Code::NoNodes => "NoNodes",
        Code::TooManyNodes => "TooManyNodes",
        Code::TaskNotFound => "TaskNotFound",
        Code::NodeNotFound => "NodeNotFound",
        Code::BranchNoCondition => "BranchNoCondition",
        Code::BoundTwice => "BoundTwice",
        Code::VariableNotFound => "VariableNotFound",
        Code::IllegalEnumValue => "IllegalEnumValue",
        Code::MismatchedTypes => "MismatchedTypes",
        Code::NotBound => "NotBound",
        Code::ArrayNoMapped => "ArrayNoMapped",
        Code::TypeTooDeep => "TypeTooDeep",
        Code::ExprFault => "ExprFault",
        Code::OutputNotBound => "OutputNotBound",
        Code::CycleDetected => "CycleDetected",
        Code::TemplateInput => "TemplateInput",
        Code::RecursiveWorkflow => "RecursiveWorkflow",
        Code::NestingTooDeep => "NestingTooDeep",
        Code::PlanTooLarge => "PlanTooLarge",
        Code::TooManyArrays => "TooManyArrays",
    }
}

/// The number of the first wrong word.
pub fn usage_line(alloc: Global, word: usize) -> Result<String, NoMemory>
    ensures { IfOk result (λ line. string_bytes line ≡ usage_text word) }
{
    Ok(format!(in alloc; "usage: word {word}\n")?)
}

/// The fault of a document, which a word names, with its place.
pub fn document_line(
    alloc: Global,
    word: &str,
    kind: DocKind,
    place: &str,
) -> Result<String, NoMemory>
    ensures { IfOk result (λ line. string_bytes line ≡ line_of_document word.now kind place.now) }
{
    let name = kind_name(kind);
    Ok(format!(in alloc; "{word}: {name} {place}\n")?)
}

/// Adds the line of a fault: its code, its place, and what more there is to say.
fn add_fault_line(lines: &mut String, fault: &Fault) -> Result<(), NoMemory>
    ensures { OnOk result (string_bytes lines.new ≡ string_bytes lines.old ++ line_of_fault fault.now) }
{
    lines.push_str("bundle: ")?;
    lines.push_str(code_name(fault.code))?;
    lines.push_str(" ")?;
    lines.push_str(fault.place.as_str())?;
    if !fault.detail.is_empty() {
        lines.push_str(" ")?;
        lines.push_str(fault.detail.as_str())?;
    }
    lines.push_str("\n")?;
    Ok(())
}

/// A line for each fault of a bundle.
pub fn fault_lines(alloc: Global, faults: &[Fault]) -> Result<String, NoMemory>
    ensures { IfOk result (λ lines. string_bytes lines ≡ lines_of_faults faults.now) }
{
    let mut lines = String::new(alloc);
    for fault in faults {
        add_fault_line(&mut lines, fault)?;
    }
    Ok(lines)
}

/// That a journal has bytes.
pub fn not_empty_line(alloc: Global) -> Result<String, NoMemory>
    ensures { IfOk result (λ line. string_bytes line ≡ line_of_journal) }
{
    Ok(String::from_str(alloc, "journal: NotEmpty /\n")?)
}

/// The file that could not be read.
pub fn unread_line(alloc: Global, path: &str) -> Result<String, NoMemory>
    ensures { IfOk result (λ line. string_bytes line ≡ unread_text path.now) }
{
    Ok(format!(in alloc; "cannot read {path}\n")?)
}

/// Puts a line, and doesn't mind where that fails.
fn try_to_put<E: Sink>(err: &mut E, line: &[u8])
    ensures { Tries (E.state err.old) (E.state err.new) line.now }
{
    let _ = err.put(line);
}

/// Prints the text that the words ask for.
pub fn print<O: Sink, E: Sink>(out: &mut O, err: &mut E, text: &[u8]) -> Status
    ensures { PrintsText (O.state out.old) (O.state out.new) (E.state err.old) (E.state err.new) text.now result }
{
    match out.put(text) {
        Ok(()) => Status::Done,
        Err(_) => {
            try_to_put(err, CANNOT_WRITE);
            Status::WriteFault
        }
    }
}

/// Puts the lines that say why there is no text, and answers the status for that.
fn put_line<E: Sink>(err: &mut E, line: &str, reason: Status) -> Status
    ensures { SaysLine (E.state err.old) (E.state err.new) line.now reason result }
{
    match err.put(line.as_bytes()) {
        Ok(()) => reason,
        Err(_) => {
            try_to_put(err, CANNOT_WRITE);
            Status::WriteFault
        }
    }
}

/// Says that there is no memory, as far as that can be said.
pub fn out_of_memory<E: Sink>(err: &mut E) -> Status
    ensures status { result ≡ Status.NoMemory }
    ensures tried { Tries (E.state err.old) (E.state err.new) no_memory_text }
{
    try_to_put(err, OUT_OF_MEMORY);
    Status::NoMemory
}

/// Says that something can't be written, as far as that can be said.
pub fn cannot_write<E: Sink>(err: &mut E) -> Status
    ensures status { result ≡ Status.WriteFault }
    ensures tried { Tries (E.state err.old) (E.state err.new) unwritten_text }
{
    try_to_put(err, CANNOT_WRITE);
    Status::WriteFault
}

/// Says why there is no text, where there was memory for the line.
pub fn say<E: Sink>(err: &mut E, line: Result<String, NoMemory>, reason: Status) -> Status
    ensures { MatchResult line (λ l. SaysLine (E.state err.old) (E.state err.new) (string_bytes l) reason result)
        (λ e. (result ≡ Status.NoMemory) × Tries (E.state err.old) (E.state err.new) no_memory_text) }
{
    match line {
        Ok(line) => put_line(err, line.as_str(), reason),
        Err(NoMemory) => out_of_memory(err),
    }
}
