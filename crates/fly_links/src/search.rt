//! A search along lists of targets.
ghost use Rattle.std.specs.Prelude.{◌≡◌, ℕ, ◌+◌, ◌<◌, ◌==◌, ◌||◌, ◌⊎◌, true, false, length, count_by, not, slice_index_or, All, Contains, IfOk, OnOk};
ghost use Rattle.fly_docs.specs.Reaching.{reaches};
ghost use Rattle.fly_links.specs.Search.{AreBelow, edges_along, is_seen, Visits};

use fly_types::{List, NoMemory};
use std::alloc::Global;

/// Which places are reached from one, itself among them. Each list is gone through once.
pub fn reached_from(
    alloc: Global,
    targets: &[List<usize>],
    start: usize,
) -> Result<Vec<bool>, NoMemory>
    requires below { AreBelow (length targets.now) targets.now }
    requires start { start < length targets.now }
    ensures len { IfOk result (λ seen. length seen.items ≡ length targets.now) }
    ensures each { IfOk result (λ seen. (v : ℕ) → v < length targets.now
        → slice_index_or seen.items v false ≡ (start == v || reaches (edges_along targets.now) start v)) }
{
    let mut seen = vec![in alloc; false; targets.len()]?;
    let mut pending = Vec::new(alloc);
    seen[start] = true;
    pending.push(start)?;
    while let Some(place) = pending.pop() {
        visit(targets[place].as_slice(), &mut seen, &mut pending)?;
    }
    Ok(seen)
}

/// Marks places and keeps those that were not marked before.
fn visit(targets: &[usize], seen: &mut [bool], pending: &mut Vec<usize>) -> Result<(), NoMemory>
    requires { All (λ t. t < length seen.old) targets.now }
    ensures { OnOk result (Visits targets.now seen.old pending.old.items seen.new pending.new.items) }
{
    for target in targets {
        if !seen[*target] {
            seen[*target] = true;
            pending.push(*target)?;
        }
    }
    Ok(())
}
