//! Marks at places, and what they pick.
ghost use Rattle.std.specs.Prelude.{◌≡◌, ℕ, ◌<◌, ◌==◌, ◌&&◌, false, map, filter, length, slice_index_or, IfOk};
ghost use Rattle.std.specs.List.{list_any, enumerate_from};

use fly_types::NoMemory;
use std::alloc::Global;

/// For each place below the count, whether it is among these.
pub fn marks_of(alloc: Global, count: usize, places: &[usize]) -> Result<Vec<bool>, NoMemory>
    ensures len { IfOk result (λ marks. length marks.items ≡ count) }
    ensures each { IfOk result (λ marks. (v : ℕ) → v < count
        → slice_index_or marks.items v false ≡ list_any (λ place. place == v) places.now) }
{
    let mut marks = vec![in alloc; false; count]?;
    for place in places {
        if *place < marks.len() {
            marks[*place] = true;
        }
    }
    Ok(marks)
}

/// Where two marks stand at once.
pub fn both_marked(alloc: Global, first: &[bool], second: &[bool]) -> Result<Vec<bool>, NoMemory>
    requires { length first.now ≡ length second.now }
    ensures len { IfOk result (λ marks. length marks.items ≡ length first.now) }
    ensures each { IfOk result (λ marks. (v : ℕ) → v < length first.now
        → slice_index_or marks.items v false ≡ (slice_index_or first.now v false && slice_index_or second.now v false)) }
{
    let mut marks = Vec::with_capacity(alloc, first.len())?;
    for place in 0..first.len() {
        let both = first[place] && second[place];
        marks.push(both)?;
    }
    Ok(marks)
}

/// The items at the places that are marked, with their places.
pub fn picked<'a, T>(
    alloc: Global,
    items: &'a [T],
    marks: &[bool],
) -> Result<Vec<(usize, &'a T)>, NoMemory>
    requires { length marks.now ≡ length items.now }
    ensures { IfOk result (λ picked. map (λ at. (at.0, at.1.now)) picked.items
        ≡ filter (λ at. slice_index_or marks.now at.0 false) (enumerate_from 0 items.now)) }
{
    let mut picked = Vec::new(alloc);
    for (place, item) in items.iter().enumerate() {
        if marks[place] {
            picked.push((place, item))?;
        }
    }
    Ok(picked)
}
