//! Tables from keys to places.
ghost use Rattle.std.specs.Prelude.{◌≡◌, ℕ, IfOk, position};
ghost use Rattle.std.specs.Ordering.{is_eq};
ghost use Rattle.std.specs.BTreeMap.{get};
ghost use Rattle.fly_links.specs.Tables.{is_place};

use fly_types::NoMemory;
use std::alloc::Global;
use std::collections::BTreeMap;

/// For each key the first place at which it stands.
pub fn first_places<K: Ord + Copy + Drop>(
    alloc: Global,
    keys: &[K],
) -> Result<BTreeMap<K, usize>, NoMemory>
    ensures { IfOk result (λ places. (key : K) → get K.cmp places key ≡ position (λ k. is_eq (K.cmp key k)) keys.now) }
{
    let mut places = BTreeMap::new(alloc);
    for (place, key) in keys.iter().enumerate() {
        if places.get(key).is_none() {
            places.insert(*key, place)?;
        }
    }
    Ok(places)
}

/// Whether this is the place that was found.
pub fn is_at(found: Option<usize>, place: usize) -> bool
    ensures { result ≡ is_place found place }
{
    match found {
        Some(found) => found == place,
        None => false,
    }
}
