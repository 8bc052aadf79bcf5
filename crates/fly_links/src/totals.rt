//! How much there is within so many levels.
ghost use Rattle.std.specs.Prelude.{◌≡◌, ℕ, ◌+◌, ◌<◌, ◌≤◌, ◌^◌, [], min, map, sum_by, length, slice_index, slice_index_or, All, IfOk};
ghost use Rattle.fly_links.specs.Search.{AreBelow};
ghost use Rattle.fly_links.specs.Totals.{total_within};

use fly_types::{List, NoMemory};
use std::alloc::Global;

/// For each place what it has itself and what its targets have, theirs included, with so many levels to go. No total is
/// above the cap.
pub fn totals(
    alloc: Global,
    targets: &[List<usize>],
    own: &[usize],
    last: &[usize],
    cap: usize,
    levels: usize,
) -> Result<Vec<usize>, NoMemory>
    requires below { AreBelow (length targets.now) targets.now }
    requires own { length own.now ≡ length targets.now }
    requires last { length last.now ≡ length targets.now }
    requires cap { cap < 2 ^ 32 }
    ensures len { IfOk result (λ totals. length totals.items ≡ length targets.now) }
    ensures each { IfOk result (λ totals. (v : ℕ) → v < length targets.now
        → slice_index totals.items v ≡ min (total_within levels targets.now own.now last.now v) cap) }
{
    let mut totals = capped(alloc, last, cap)?;
    let mut level = 0;
    while level < levels {
        totals = one_level_more(alloc, targets, own, &totals, cap)?;
        level += 1;
    }
    Ok(totals)
}

/// The numbers, or the cap for those above it.
fn capped(alloc: Global, numbers: &[usize], cap: usize) -> Result<Vec<usize>, NoMemory>
    ensures { IfOk result (λ capped. capped.items ≡ map (λ n. min n cap) numbers.now) }
{
    let mut capped = Vec::with_capacity(alloc, numbers.len())?;
    for number in numbers {
        let number = *number;
        capped.push(number.min(cap))?;
    }
    Ok(capped)
}

fn one_level_more(
    alloc: Global,
    targets: &[List<usize>],
    own: &[usize],
    totals: &[usize],
    cap: usize,
) -> Result<Vec<usize>, NoMemory>
    requires below { AreBelow (length targets.now) targets.now }
    requires own { length own.now ≡ length targets.now }
    requires totals { length totals.now ≡ length targets.now }
    requires cap { cap < 2 ^ 32 }
    requires capped { All (λ n. n ≤ cap) totals.now }
    ensures len { IfOk result (λ more. length more.items ≡ length targets.now) }
    ensures capped { IfOk result (λ more. All (λ n. n ≤ cap) more.items) }
    ensures each { IfOk result (λ more. (v : ℕ) → v < length targets.now → slice_index more.items v
        ≡ min (slice_index own.now v + sum_by (λ t. slice_index totals.now t) (slice_index_or targets.now v [])) cap) }
{
    let mut more = Vec::with_capacity(alloc, targets.len())?;
    for (place, list) in targets.iter().enumerate() {
        more.push(capped_sum(own[place], list.as_slice(), totals, cap))?;
    }
    Ok(more)
}

/// The sum of a number and the totals at some places, or the cap where it is more.
fn capped_sum(own: usize, places: &[usize], totals: &[usize], cap: usize) -> usize
    requires below { All (λ t. t < length totals.now) places.now }
    requires cap { cap < 2 ^ 32 }
    requires capped { All (λ n. n ≤ cap) totals.now }
    ensures { result ≡ min (own + sum_by (λ t. slice_index totals.now t) places.now) cap }
{
    let mut sum = own.min(cap);
    for place in places {
        sum = (sum + totals[*place]).min(cap);
    }
    sum
}
