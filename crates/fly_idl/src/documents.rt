ghost use Rattle.std.specs.Prelude.{◌≡◌, ◌⊎◌, [], codes, IfOk, IfErr};
ghost use Rattle.serde_json.specs.Data.{Data};
ghost use Rattle.serde_json.specs.View.{view};
ghost use Rattle.fly_schema.specs.Reports.{report_in};
ghost use Rattle.fly_schema.specs.Views.{form_of};
ghost use Rattle.fly_idl.specs.Reading.{IsFaultless, Reads, IsFirstFault};

use crate::rows::{
    bundle_form, error_document_form, literal_map_form, message_table, submissions_form,
};
use fly_docs::{Bundle, Submission};
use fly_schema::{DocFault, DocKind, Form, first_fault};
use fly_types::{List, LiteralMap, NoMemory, Said, Text};
use fly_values::{bundle_from, error_document_from, literal_map_from, submissions_from};
use serde_json::Value;
use std::alloc::Global;

/// The most bytes that a document has, 16 MiB.
pub const DOCUMENT_LIMIT: u64 = 16 * 1024 * 1024;

/// What a document is read as.
pub trait Document: Drop {
    ghost use Rattle.serde_json.specs.Data.{Data};
    ghost use Rattle.fly_schema.specs.Table.{Forms};

    ghost form: { Forms };

    ghost of: { Data → Self };

    /// What the JSON value of the document is to be.
    fn form() -> Form
        ensures { form_of result ≡ form };

    fn from_tree(alloc: Global, tree: Value) -> Result<Self, NoMemory>
        ensures { IfOk result (λ d. d ≡ of (view tree)) };
}

/// The value of a document, or the first rule that the bytes break.
pub fn read_document<D: Document>(alloc: Global, bytes: &[u8]) -> Result<D, DocFault>
    ensures read { IfOk result (Reads D.form D.of bytes.now) }
    ensures only { (d : D) → Reads D.form D.of bytes.now d → IfOk result (λ r. r ≡ d) }
    ensures fault { IfErr result (IsFirstFault D.form bytes.now) }
{
    let tree = read_tree(alloc, &D::form(), bytes)?;
    match D::from_tree(alloc, tree) {
        Ok(document) => Ok(document),
        Err(NoMemory) => Err(out_of_memory(alloc)),
    }
}

/// The JSON value of a document of this form.
fn read_tree(alloc: Global, form: &Form, bytes: &[u8]) -> Result<Value, DocFault>
    ensures read { IfOk result (λ v. IsFaultless (form_of form.now) bytes.now (view v)) }
    ensures only { (d : Data) → IsFaultless (form_of form.now) bytes.now d → IfOk result (λ v. view v ≡ d) }
    ensures fault { IfErr result (IsFirstFault (form_of form.now) bytes.now) }
{
    if bytes.len() as u64 > DOCUMENT_LIMIT {
        return Err(at_document(alloc, DocKind::TooLarge));
    }
    match Value::from_slice(alloc, bytes) {
        Ok(tree) => match first_fault(alloc, &message_table(), form, &tree) {
            Ok(None) => Ok(tree),
            Ok(Some(fault)) => Err(fault),
            Err(NoMemory) => Err(out_of_memory(alloc)),
        },
        Err(error) if error.is_memory() => Err(out_of_memory(alloc)),
        Err(_) => Err(at_document(alloc, DocKind::NotJson)),
    }
}

/// A fault of the whole document, or want of memory for the name of its place.
fn at_document(alloc: Global, kind: DocKind) -> DocFault
    ensures { (report_in result ≡ (kind, codes "/")) ⊎ (report_in result ≡ (DocKind.NoMemory, [])) }
{
    match Text::from_str(alloc, "/") {
        Ok(place) => DocFault { kind, place },
        Err(NoMemory) => out_of_memory(alloc),
    }
}

fn out_of_memory(alloc: Global) -> DocFault
    ensures { report_in result ≡ (DocKind.NoMemory, []) }
{
    DocFault {
        kind: DocKind::NoMemory,
        place: Text::from_string(String::new(alloc)),
    }
}

impl Document for Bundle {
    ghost use Rattle.fly_values.specs.Documents.{bundle_value};
    ghost use Rattle.fly_idl.specs.Rows.{bundle_form};

    ghost form = { bundle_form };

    ghost of = { bundle_value };

    fn form() -> Form {
        bundle_form()
    }

    fn from_tree(alloc: Global, tree: Value) -> Result<Bundle, NoMemory> {
        bundle_from(alloc, tree)
    }
}

impl Document for List<Submission> {
    ghost use Rattle.fly_values.specs.Documents.{submissions_value};
    ghost use Rattle.fly_idl.specs.Rows.{submissions_form};

    ghost form = { submissions_form };

    ghost of = { submissions_value };

    fn form() -> Form {
        submissions_form()
    }

    fn from_tree(alloc: Global, tree: Value) -> Result<List<Submission>, NoMemory> {
        submissions_from(alloc, tree)
    }
}

impl Document for LiteralMap {
    ghost use Rattle.fly_values.specs.Literals.{literal_map_value};
    ghost use Rattle.fly_idl.specs.Rows.{literal_map_form};

    ghost form = { literal_map_form };

    ghost of = { literal_map_value };

    fn form() -> Form {
        literal_map_form()
    }

    fn from_tree(alloc: Global, tree: Value) -> Result<LiteralMap, NoMemory> {
        literal_map_from(alloc, tree)
    }
}

/// An `ErrorDocument`.
impl Document for Said {
    ghost use Rattle.fly_values.specs.Documents.{error_document_value};
    ghost use Rattle.fly_idl.specs.Rows.{error_document_form};

    ghost form = { error_document_form };

    ghost of = { error_document_value };

    fn form() -> Form {
        error_document_form()
    }

    fn from_tree(alloc: Global, tree: Value) -> Result<Said, NoMemory> {
        Ok(error_document_from(alloc, tree))
    }
}
