ghost use Rattle.std.specs.Prelude.{◌≡◌, ◌≤◌, IfOk, IfErr, true, false, length, List as Listed};
ghost use Rattle.fly_docs.specs.Form.{IsBundleInForm};
ghost use Rattle.fly_docs.specs.Readable.{IsReadable};
ghost use Rattle.fly_docs.specs.SoundDocuments.{IsSoundBundle};
ghost use Rattle.fly_types.specs.Sound.{IsSoundMap};
ghost use Rattle.fly_idl.specs.Reading as documents;
ghost use Rattle.fly_idl.specs.Reading.{HaveIds, HaveSoundInputs, IsFirstFault, ReadsBundle, ReadsSubmissions, ReadsLiteralMap};
ghost use Rattle.fly_idl.specs.Rows.{bundle_form, submissions_form, literal_map_form};
ghost use Rattle.fly_idl.specs.Saying.{HasSoundOutputs, Says, output_limit};

use crate::documents::read_document;
use fly_docs::{Bundle, Submission};
use fly_schema::{DocFault, DocKind};
use fly_types::{List, LiteralMap, NoMemory, Said};
use std::alloc::Global;

/// The most bytes that a child may write, 1 MiB.
const OUTPUT_LIMIT: usize = 1024 * 1024;

/// The bundle that the bytes are the document of.
pub fn read_bundle(alloc: Global, bytes: &[u8]) -> Result<Bundle, DocFault>
    ensures read { IfOk result (ReadsBundle bytes.now) }
    ensures only { (value : documents.Bundle) → ReadsBundle bytes.now value → IfOk result (λ r. r ≡ value) }
    ensures fault { IfErr result (IsFirstFault bundle_form bytes.now) }
    ensures form { IfOk result IsBundleInForm }
    ensures readable { IfOk result IsReadable }
    ensures sound { IfOk result IsSoundBundle }
{
    read_document(alloc, bytes)
}

/// The submissions that the bytes are a list of.
pub fn read_submissions(alloc: Global, bytes: &[u8]) -> Result<List<Submission>, DocFault>
    ensures read { IfOk result (ReadsSubmissions bytes.now) }
    ensures only { (value : Listed documents.Submission) → ReadsSubmissions bytes.now value → IfOk result (λ r. r ≡ value) }
    ensures fault { IfErr result (IsFirstFault submissions_form bytes.now) }
    ensures named { IfOk result HaveIds }
    ensures sound { IfOk result HaveSoundInputs }
{
    read_document(alloc, bytes)
}

/// The literals that the bytes are the document of.
pub fn read_literal_map(alloc: Global, bytes: &[u8]) -> Result<LiteralMap, DocFault>
    ensures read { IfOk result (ReadsLiteralMap bytes.now) }
    ensures only { (value : documents.LiteralMap) → ReadsLiteralMap bytes.now value → IfOk result (λ r. r ≡ value) }
    ensures fault { IfErr result (IsFirstFault literal_map_form bytes.now) }
    ensures sound { IfOk result IsSoundMap }
{
    read_document(alloc, bytes)
}

/// What a child wrote: where its status is 0, a `LiteralMap` of its outputs, and no bytes are an empty one; else an
/// `ErrorDocument`.
pub fn read_said(alloc: Global, bytes: &[u8], zero: bool) -> Result<Said, NoMemory>
    ensures says { IfOk result (Says zero bytes.now) }
    ensures only { (said : documents.Said) → Says zero bytes.now said → IfOk result (λ r. r ≡ said) }
    ensures sound { IfOk result HasSoundOutputs }
{
    said_of(alloc, bytes, zero)
}

fn said_of(alloc: Global, bytes: &[u8], zero: bool) -> Result<Said, NoMemory>
    ensures { IfOk result (Says zero bytes.now) }
{
    if bytes.len() > OUTPUT_LIMIT {
        return Ok(Said::TooLarge);
    }
    if zero {
        outputs_of(alloc, bytes)
    } else {
        error_of(alloc, bytes)
    }
}

fn outputs_of(alloc: Global, bytes: &[u8]) -> Result<Said, NoMemory>
    requires { length bytes.now ≤ output_limit }
    ensures { IfOk result (Says true bytes.now) }
{
    if bytes.is_empty() {
        let entries = List::from_vec(Vec::new(alloc));
        return Ok(Said::Outputs(LiteralMap { entries }));
    }
    match read_literal_map(alloc, bytes) {
        Ok(outputs) => Ok(Said::Outputs(outputs)),
        Err(fault) => no_document(fault),
    }
}

fn error_of(alloc: Global, bytes: &[u8]) -> Result<Said, NoMemory>
    requires { length bytes.now ≤ output_limit }
    ensures { IfOk result (Says false bytes.now) }
{
    match read_document(alloc, bytes) {
        Ok(said) => Ok(said),
        Err(fault) => no_document(fault),
    }
}

/// Bytes that are not the document are neither, but for want of memory.
fn no_document(fault: DocFault) -> Result<Said, NoMemory>
    ensures { IfOk result (λ s. (s ≡ Said.Neither) × (fault.kind ≡ DocKind.NoMemory → ⊥)) }
{
    if fault.kind == DocKind::NoMemory {
        return Err(NoMemory);
    }
    Ok(Said::Neither)
}
