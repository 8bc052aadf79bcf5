ghost use Rattle.std.specs.Prelude.{◌≡◌, IfOk};
ghost use Rattle.fly_opening.specs.Hashes as words;

use fly_docs::Closure;
use fly_types::NoMemory;
use fly_writers::write_closure;
use sha2::{Digest, Sha256};
use std::alloc::Global;

/// The hash by which a journal names its closure: that of the closure's text.
pub fn closure_hash(alloc: Global, closure: &Closure) -> Result<[u8; 32], NoMemory>
    ensures { IfOk result (λ hash. hash ≡ words.closure_hash closure.now) }
{
    let text = write_closure(alloc, closure)?;
    Ok(Sha256::digest(text.as_slice()))
}
