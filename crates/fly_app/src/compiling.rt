//! The closures of the bundles in files.
ghost use Rattle.fly_docs.specs.Form.{IsBundleInForm};
ghost use Rattle.fly_app.specs.Compiling.{ClosesBundle, ClosesFile, CompilesFile, WritesClosure};

use crate::printing::fault_lines;
use crate::reading::{Unanswered, bundle_of, read_bytes, refusal};
use fly_compile::{CompileFault, compile, no_faults_exactly_where_typed};
use fly_docs::{Bundle, Closure};
use fly_idl::DOCUMENT_LIMIT;
use fly_ports::Files;
use fly_writers::write_closure;
use std::alloc::Global;

/// The closure of a bundle, or a line for each of its faults.
fn closure_of<'w>(alloc: Global, bundle: &Bundle) -> Result<Closure, Unanswered<'w>>
    requires { IsBundleInForm bundle.now }
    ensures { ClosesBundle bundle.now result }
{
    match compile(alloc, bundle) {
        Ok(closure) => Ok(closure),
        Err(CompileFault::Refused(faults)) => {
            Err(refusal(fault_lines(alloc, faults.as_slice())))
        }
        Err(CompileFault::NoMemory) => Err(Unanswered::NoMemory),
    }
}

/// The closure of the bundle in a file. The document and the bundle are given up.
pub(crate) fn closure_of_file<'w, F: Files>(
    alloc: Global,
    files: &mut F,
    path: &'w str,
) -> Result<Closure, Unanswered<'w>>
    ensures { ClosesFile (F.state files.old) (F.state files.new) path.now result }
{
    let bytes = match read_bytes(alloc, files, path, DOCUMENT_LIMIT) {
        Ok(bytes) => bytes,
        Err(unanswered) => return Err(unanswered),
    };
    let bundle = match bundle_of(alloc, &bytes) {
        Ok(bundle) => bundle,
        Err(unanswered) => return Err(unanswered),
    };
    drop(bytes);
    no_faults_exactly_where_typed();
    closure_of(alloc, &bundle)
}

/// The text of a closure, with a newline.
fn closure_line<'w>(alloc: Global, closure: &Closure) -> Result<Vec<u8>, Unanswered<'w>>
    ensures { WritesClosure closure.now result }
{
    let Ok(mut text) = write_closure(alloc, closure) else {
        return Err(Unanswered::NoMemory);
    };
    match text.push(b'\n') {
        Ok(()) => Ok(text),
        Err(_) => Err(Unanswered::NoMemory),
    }
}

/// The text of the closure of the bundle in a file, with a newline.
pub(crate) fn closure_line_of_file<'w, F: Files>(
    alloc: Global,
    files: &mut F,
    path: &'w str,
) -> Result<Vec<u8>, Unanswered<'w>>
    ensures { CompilesFile (F.state files.old) (F.state files.new) path.now result }
{
    match closure_of_file(alloc, files, path) {
        Ok(closure) => closure_line(alloc, &closure),
        Err(unanswered) => Err(unanswered),
    }
}
