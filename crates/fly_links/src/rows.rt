//! Lists of places by place.
ghost use Rattle.std.specs.Prelude.{◌≡◌, ℕ, ◌<◌, [], not, length, IfOk, OnOk};
ghost use Rattle.fly_links.specs.Rows as as_lists;
ghost use Rattle.fly_links.specs.Rows.{has_place, row_at, with_place, AreBefore, ends_in};

use fly_types::{List, NoMemory};
use std::alloc::Global;
use std::marker::Model;

/// A list of places that grows. Contracts see the list itself.
#[derive(Drop)]
pub struct Row {
    places: Vec<usize>,
}

impl Model for Row {
    ghost use Rattle.std.specs.Prelude.{List, ℕ};

    ghost Value = { List ℕ };

    ghost view = { λ r. r.places.items };
}

impl Row {
    fn new(alloc: Global) -> Row
        ensures { result ≡ [] }
    {
        Row {
            places: Vec::new(alloc),
        }
    }

    /// Appends a place, unless the list ends in it.
    fn push_once(&mut self, place: usize) -> Result<(), NoMemory>
        ensures { OnOk result (self.new ≡ with_place (not (ends_in self.old place)) self.old place) }
    {
        if self.ends_in(place) {
            return Ok(());
        }
        self.places.push(place)?;
        Ok(())
    }

    fn ends_in(&self, place: usize) -> bool
        ensures { result ≡ ends_in self.now place }
    {
        match self.places.last() {
            Some(last) => *last == place,
            None => false,
        }
    }

    fn into_list(self) -> List<usize>
        ensures { result ≡ self }
    {
        let Row { places } = self;
        List::from_vec(places)
    }
}

/// For each place below the count the places whose rows have it, rising. Each row is gone through once, and what is at or
/// past the count is passed over.
pub fn transposed(
    alloc: Global,
    rows: &[List<usize>],
    count: usize,
) -> Result<Vec<List<usize>>, NoMemory>
    ensures { IfOk result (λ others. others.items ≡ as_lists.transposed count rows.now) }
{
    let mut others = empty_rows(alloc, count)?;
    for (place, row) in rows.iter().enumerate() {
        push_to_each(place, row.as_slice(), &mut others)?;
    }
    into_lists(alloc, others)
}

fn empty_rows(alloc: Global, count: usize) -> Result<Vec<Row>, NoMemory>
    ensures len { IfOk result (λ rows. length rows.items ≡ count) }
    ensures each { IfOk result (λ rows. (u : ℕ) → u < count → row_at rows.items u ≡ []) }
{
    let mut rows = Vec::with_capacity(alloc, count)?;
    for _ in 0..count {
        rows.push(Row::new(alloc))?;
    }
    Ok(rows)
}

/// Appends a place to the row of each target, once. The rows have lower places alone.
fn push_to_each(place: usize, targets: &[usize], rows: &mut Vec<Row>) -> Result<(), NoMemory>
    requires { AreBefore place rows.old.items }
    ensures len { OnOk result (length rows.new.items ≡ length rows.old.items) }
    ensures each { OnOk result ((u : ℕ) → u < length rows.old.items
        → row_at rows.new.items u ≡ with_place (has_place targets.now u) (row_at rows.old.items u) place) }
{
    for target in targets {
        if *target < rows.len() {
            rows[*target].push_once(place)?;
        }
    }
    Ok(())
}

fn into_lists(alloc: Global, rows: Vec<Row>) -> Result<Vec<List<usize>>, NoMemory>
    ensures { IfOk result (λ lists. lists.items ≡ rows.items) }
{
    let mut lists = Vec::with_capacity(alloc, rows.len())?;
    for row in rows {
        lists.push(row.into_list())?;
    }
    Ok(lists)
}
