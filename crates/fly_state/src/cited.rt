//! What entries say that a move cites, and what attempts came to.
ghost use Rattle.std.specs.Prelude.{◌≡◌, ◌&&◌, is_some, bytes_eq};
ghost use Rattle.fly_docs.specs.Plans.{PlanNode};
ghost use Rattle.fly_state.specs.Plans.{same_path};
ghost use Rattle.fly_state.specs.Moves as words;

use crate::{Entry, Op, Reply, View};
use fly_docs::{AttemptName, Task};
use fly_types::{List, Text};

/// Whether the two are one path.
fn are_one_path(a: &[Text], b: &[Text]) -> bool
    ensures { result ≡ same_path a.now b.now }
{
    a == b
}

/// Whether the operation is on the node of this path in this execution.
fn is_on(v: &View, own: &List<Text>, exec: &Text, path: &List<Text>) -> bool
    ensures { result ≡ bytes_eq v.now.name exec.now && same_path own.now path.now }
{
    v.name == *exec && are_one_path(own.as_slice(), path.as_slice())
}

/// Whether the catalog was found to lack the outputs of the node.
pub(crate) fn is_miss(v: &View, own: &List<Text>, entry: &Entry) -> bool
    ensures { (p : PlanNode) → p.path ≡ own.now → result ≡ words.is_miss v.now p entry.now }
{
    match &entry.op {
        Op::Lookup { exec, path } => match &entry.reply {
            Reply::Miss => is_on(v, own, exec, path),
            _ => false,
        },
        _ => false,
    }
}

/// Whether a reservation was granted to the node.
pub(crate) fn is_grant(v: &View, own: &List<Text>, entry: &Entry) -> bool
    ensures { (p : PlanNode) → p.path ≡ own.now → result ≡ words.is_grant v.now p entry.now }
{
    match &entry.op {
        Op::Reserve { exec, path } => match &entry.reply {
            Reply::Granted(_) => is_on(v, own, exec, path),
            _ => false,
        },
        _ => false,
    }
}

/// Whether the catalog has the outputs of the node.
pub(crate) fn is_stored(v: &View, own: &List<Text>, entry: &Entry) -> bool
    ensures { (p : PlanNode) → p.path ≡ own.now → result ≡ words.is_stored v.now p entry.now }
{
    match &entry.op {
        Op::Put { exec, path } => match &entry.reply {
            Reply::Stored | Reply::Present => is_on(v, own, exec, path),
            _ => false,
        },
        _ => false,
    }
}

/// Whether the catalog was found to have outputs of the node.
pub(crate) fn is_hit(v: &View, own: &List<Text>, entry: &Entry) -> bool
    ensures { (p : PlanNode) → p.path ≡ own.now → result ≡ is_some (words.hit_content v.now p entry.now) }
{
    match &entry.op {
        Op::Lookup { exec, path } => match &entry.reply {
            Reply::Hit(_) => is_on(v, own, exec, path),
            _ => false,
        },
        _ => false,
    }
}

/// Whether the task may run by these entries.
pub(crate) fn may_run(
    v: &View,
    own: &List<Text>,
    task: &Task,
    miss: Option<u64>,
    lease: Option<u64>,
    entries: &[Entry],
) -> bool
    ensures { (p : PlanNode) → p.path ≡ own.now → result ≡ words.may_run v.now p task.now miss lease entries.now }
{
    if !task.cached {
        return miss.is_none() && lease.is_none() && entries.is_empty();
    }
    if miss.is_none() {
        return false;
    }
    if task.serializable {
        return match entries {
            [looked, reserved] => {
                lease.is_some() && is_miss(v, own, looked) && is_grant(v, own, reserved)
            }
            _ => false,
        };
    }
    match entries {
        [looked] => lease.is_none() && is_miss(v, own, looked),
        _ => false,
    }
}

/// Whether the name is of this attempt of the node, or of its item of that number.
pub(crate) fn is_attempt(
    v: &View,
    own: &List<Text>,
    item: Option<u32>,
    attempt: u32,
    name: &AttemptName,
) -> bool
    ensures { (p : PlanNode) → p.path ≡ own.now → result ≡ words.is_attempt v.now p item attempt name.now }
{
    is_on(v, own, &name.exec, &name.path) && item == name.item && attempt == name.attempt
}

/// Whether the attempt came to something.
pub(crate) fn has_outcome(v: &View, own: &List<Text>, item: Option<u32>, attempt: u32) -> bool
    ensures { (p : PlanNode) → p.path ≡ own.now → result ≡ is_some (words.outcome_in v.now p item attempt) }
{
    for known in v.launches.as_slice() {
        if is_attempt(v, own, item, attempt, &known.name) {
            return known.outcome.is_some();
        }
    }
    false
}
