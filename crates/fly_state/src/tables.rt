//! Tables from keys to places.
ghost use Rattle.std.specs.Prelude.{◌≡◌, ℕ, map, position, IfOk};
ghost use Rattle.std.specs.Ordering.{is_eq};
ghost use Rattle.std.specs.BTreeMap.{get};
ghost use Rattle.fly_state.specs.Tables.{key_id, key_cmp};

use fly_docs::{Binding, Identifier, Task};
use fly_types::NoMemory;
use std::alloc::Global;
use std::collections::BTreeMap;

/// An identifier by its fields.
pub(crate) type Key<'a> = (&'a str, &'a str, &'a str, &'a str);

/// For each key the first place at which it stands.
pub(crate) fn first_places<K: Ord + Copy + Drop>(
    alloc: Global,
    keys: &[K],
) -> Result<BTreeMap<K, usize>, NoMemory>
    ensures { IfOk result (λ places. (key : K) → get K.cmp places key ≡ position (λ k. is_eq (K.cmp key k)) keys.now) }
{
    let mut places = BTreeMap::new(alloc);
    for (place, key) in keys.iter().enumerate() {
        if places.get(key).is_none() {
            places.insert(*key, place)?;
        }
    }
    Ok(places)
}

pub(crate) fn key_of(id: &Identifier) -> Key<'_>
    ensures { key_id result ≡ id.now }
{
    (
        id.project.as_str(),
        id.domain.as_str(),
        id.name.as_str(),
        id.version.as_str(),
    )
}

/// The tasks by their ids.
pub(crate) fn task_keys(alloc: Global, tasks: &[Task]) -> Result<Vec<Key<'_>>, NoMemory>
    ensures { IfOk result (λ keys. map key_id keys.items ≡ map (λ t. t.id) tasks.now) }
{
    let mut keys = Vec::with_capacity(alloc, tasks.len())?;
    for task in tasks {
        keys.push(key_of(&task.id))?;
    }
    Ok(keys)
}

/// The place of a key.
pub(crate) fn found<'k>(table: &BTreeMap<Key<'k>, usize>, key: Key<'k>) -> Option<usize>
    ensures { result ≡ get key_cmp table.now key.entry }
{
    table.get(&key).copied()
}

/// The names of the variables that are bound, in their order.
pub(crate) fn bound_names(alloc: Global, bindings: &[Binding]) -> Result<Vec<&str>, NoMemory>
    ensures { IfOk result (λ names. map (λ n. n.now) names.items ≡ map (λ x. x.var) bindings.now) }
{
    let mut names = Vec::with_capacity(alloc, bindings.len())?;
    for binding in bindings {
        names.push(binding.var.as_str())?;
    }
    Ok(names)
}
