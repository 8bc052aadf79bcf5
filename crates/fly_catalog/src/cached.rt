//! Under which dataset and tag the outputs of a cached node are kept, and the owner of its reservation.
ghost use Rattle.std.specs.Prelude.{◌≡◌, ◌++◌, IfOk};
ghost use Rattle.fly_catalog.specs.Cached.{cached_dataset, cached_tag, owner_text};

use base64::engine::general_purpose::URL_SAFE_NO_PAD;
use fly_docs::{DatasetId, Task};
use fly_types::{List, LiteralMap, NoMemory, Text, canonical};
use sha2::{Digest, Sha256};
use std::alloc::Global;

/// The dataset of a task's outputs: its project and domain, its name behind `flyte_task-`, and its cache version.
pub fn cached_dataset(alloc: Global, task: &Task) -> Result<DatasetId, NoMemory>
    ensures { IfOk result (λ d. d ≡ cached_dataset task.now) }
{
    Ok(DatasetId {
        project: task.id.project.copy(alloc)?,
        domain: task.id.domain.copy(alloc)?,
        name: prefixed(alloc, "flyte_task-", task.id.name.as_str())?,
        version: task.cache_version.copy(alloc)?,
    })
}

/// The tag of the outputs of these inputs: `flyte_cached-`, and the base64 of the digest of their canonical bytes.
pub fn cached_tag(alloc: Global, inputs: &LiteralMap) -> Result<Text, NoMemory>
    ensures { IfOk result (λ t. t ≡ cached_tag inputs.now) }
{
    let bytes = canonical(alloc, inputs)?;
    let digest = Sha256::digest(bytes.as_slice());
    let text = URL_SAFE_NO_PAD.encode(alloc, &digest)?;
    prefixed(alloc, "flyte_cached-", text.as_str())
}

/// The owner of a node's reservation: the name of its execution and the ids of its path, with slashes between them.
pub fn owner_of(alloc: Global, exec: &Text, path: &List<Text>) -> Result<Text, NoMemory>
    ensures { IfOk result (λ t. t ≡ owner_text exec.now path.now) }
{
    let mut text = String::from_str(alloc, exec.as_str())?;
    for id in path.as_slice() {
        text.push_str("/")?;
        text.push_str(id.as_str())?;
    }
    Ok(Text::from_string(text))
}

fn prefixed(alloc: Global, front: &str, rest: &str) -> Result<Text, NoMemory>
    ensures { IfOk result (λ t. t ≡ front.now ++ rest.now) }
{
    let mut text = String::from_str(alloc, front)?;
    text.push_str(rest)?;
    Ok(Text::from_string(text))
}
