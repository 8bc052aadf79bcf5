//! Files, and the documents in them.
ghost use Rattle.std.specs.Prelude.{◌≡◌, List as Listed, ℕ, IfOk, IfErr, MatchResult};
ghost use Rattle.fly_docs.specs.Form.{IsBundleInForm};
ghost use Rattle.fly_docs.specs.Readable.{IsReadable};
ghost use Rattle.fly_idl.specs.Reading.{ReadsBundle, IsFirstFault};
ghost use Rattle.fly_idl.specs.Rows.{bundle_form};
ghost use Rattle.fly_schema.specs.Table.{Forms};
ghost use Rattle.fly_app.specs.Documents.{bundle_word};
ghost use Rattle.fly_app.specs.Reading.{ReadsUpTo, RefusesBytes, ReadsSubmissionsIn, ReadsSubmissionsAt};

use crate::printing::document_line;
use fly_docs::{Bundle, Submission};
use fly_idl::{DOCUMENT_LIMIT, read_bundle, read_submissions};
use fly_ports::{Files, ReadFault};
use fly_schema::{DocFault, DocKind};
use fly_types::{List, NoMemory};
use std::alloc::Global;

/// Why a command has no answer.
#[derive(Debug, Drop)]
pub enum Unanswered<'w> {
    /// What a file holds is refused, for what these lines say.
    Refused(String),
    /// The file at this path is absent or could not be read.
    Unread(&'w str),
    NoMemory,
}

/// These lines, where there was memory for them.
pub(crate) fn refusal<'w>(lines: Result<String, NoMemory>) -> Unanswered<'w>
    ensures { MatchResult lines (λ l. result ≡ Unanswered.Refused l) (λ e. result ≡ Unanswered.NoMemory) }
{
    match lines {
        Ok(lines) => Unanswered::Refused(lines),
        Err(NoMemory) => Unanswered::NoMemory,
    }
}

/// The line for the fault of a document, which a word names.
fn document_refusal<'w>(alloc: Global, word: &str, fault: DocFault) -> Unanswered<'w>
    ensures { (form : Forms) (bytes : Listed ℕ) → IsFirstFault form bytes fault → RefusesBytes word.now form bytes result }
{
    match fault.kind {
        DocKind::NoMemory => Unanswered::NoMemory,
        kind => refusal(document_line(alloc, word, kind, fault.place.as_str())),
    }
}

/// The first bytes of a file: one more than the limit, or all where there are fewer.
pub(crate) fn read_bytes<'w, F: Files>(
    alloc: Global,
    files: &mut F,
    path: &'w str,
    limit: u64,
) -> Result<Vec<u8>, Unanswered<'w>>
    ensures { ReadsUpTo (F.state files.old) (F.state files.new) path.now limit result }
{
    match files.read(alloc, path, limit) {
        Ok(bytes) => Ok(bytes),
        Err(ReadFault::Failed) => Err(Unanswered::Unread(path)),
        Err(ReadFault::Absent) => Err(Unanswered::Unread(path)),
        Err(ReadFault::NoMemory) => Err(Unanswered::NoMemory),
    }
}

/// The bundle whose document the bytes are.
pub(crate) fn bundle_of<'w>(alloc: Global, bytes: &[u8]) -> Result<Bundle, Unanswered<'w>>
    ensures ok { IfOk result (ReadsBundle bytes.now) }
    ensures form { IfOk result IsBundleInForm }
    ensures readable { IfOk result IsReadable }
    ensures err { IfErr result (RefusesBytes bundle_word bundle_form bytes.now) }
{
    match read_bundle(alloc, bytes) {
        Ok(bundle) => Ok(bundle),
        Err(fault) => Err(document_refusal(alloc, "bundle", fault)),
    }
}

/// The submissions whose document the bytes are.
fn submissions_of<'w>(alloc: Global, bytes: &[u8]) -> Result<List<Submission>, Unanswered<'w>>
    ensures { ReadsSubmissionsIn bytes.now result }
{
    match read_submissions(alloc, bytes) {
        Ok(submissions) => Ok(submissions),
        Err(fault) => Err(document_refusal(alloc, "submissions", fault)),
    }
}

/// The submissions whose document a file holds.
pub(crate) fn submissions_of_file<'w, F: Files>(
    alloc: Global,
    files: &mut F,
    path: &'w str,
) -> Result<List<Submission>, Unanswered<'w>>
    ensures { ReadsSubmissionsAt (F.state files.old) (F.state files.new) path.now result }
{
    let bytes = match read_bytes(alloc, files, path, DOCUMENT_LIMIT) {
        Ok(bytes) => bytes,
        Err(unanswered) => return Err(unanswered),
    };
    submissions_of(alloc, &bytes)
}
