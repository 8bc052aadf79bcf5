ghost use Rattle.std.specs.Prelude.{◌≡◌, ℕ, ◌<◌, length, All, IfOk, OnOk, slice_index_or, nat_eq, if◌then◌else◌, replicate, true, false, [], nat_lt, ◌&&◌, ◌↔◌, IsTrue, Contains};
ghost use Rattle.std.specs.List.{list_any, AllPairs};
ghost use Rattle.std.specs.List.Sorted.{IsStrictlyIncreasing};
ghost use Rattle.fly_graph.specs.Walks.{Reaches};

use crate::adjacency::Adjacency;
use std::alloc::{AllocError, Global};

/// How far the search has come with a number.
#[derive(Clone, Copy, Debug)]
pub enum Mark {
    Unseen,
    /// On the path, at this place.
    OnPath(usize),
    Done,
}

/// A search for the strongly connected components along a path. The path is cut into segments, each of them strongly
/// connected by the edges that were followed, and each number on it reaches those after it.
#[derive(Debug, Drop)]
pub struct Search {
    pub marks: Vec<Mark>,
    /// For each number, how many of the edges that leave it were followed.
    pub followed: Vec<usize>,
    pub cyclic: Vec<bool>,
    pub path: Vec<u32>,
    /// The places at which the segments begin.
    pub bounds: Vec<usize>,
    /// The places whose numbers may have edges left to follow.
    pub pending: Vec<usize>,
}

impl Search {
    ghost use Rattle.std.specs.Prelude.{◌-◌, ◌≤◌, All, Contains, slice_index};
    ghost use Rattle.fly_graph.specs.Components.{state_of, IsSearch, enter, note, meet, join, Closes, KeepsSeen, is_unseen, mark_of, work_left};

    pub fn new(alloc: Global, count: u32) -> Result<Search, AllocError>
        ensures { IfOk result (λ search. state_of search ≡ record {
          marks = replicate count Mark.Unseen;
          followed = replicate count 0;
          cyclic = replicate count false;
          path = [];
          bounds = [];
          pending = [];
        }) }
    {
        let count = count as usize;
        Ok(Search {
            marks: vec![in alloc; Mark::Unseen; count]?,
            followed: vec![in alloc; 0; count]?,
            cyclic: vec![in alloc; false; count]?,
            path: Vec::new(alloc),
            bounds: Vec::new(alloc),
            pending: Vec::new(alloc),
        })
    }

    /// Puts an unseen number at the end of the path, as a segment of its own.
    fn enter(&mut self, v: u32) -> Result<(), AllocError>
        requires { v < length self.old.marks.items }
        ensures { OnOk result (state_of self.new ≡ enter v (state_of self.old)) }
    {
        let place = self.path.len();
        self.path.push(v)?;
        self.bounds.push(place)?;
        self.pending.push(place)?;
        self.marks[v as usize] = Mark::OnPath(place);
        Ok(())
    }

    /// Sees to it that a number is done.
    pub fn visit(&mut self, adjacency: &Adjacency, v: u32) -> Result<(), AllocError>
        requires v { v < adjacency.now.count }
        requires search { IsSearch adjacency.now.count adjacency.now.edges.items (state_of self.old) }
        requires empty { self.old.path.items ≡ [] }
        ensures search { OnOk result (IsSearch adjacency.now.count adjacency.now.edges.items (state_of self.new)) }
        ensures empty { OnOk result (self.new.path.items ≡ []) }
        ensures seen { OnOk result (KeepsSeen (state_of self.old) (state_of self.new)) }
        ensures visited { OnOk result (is_unseen (mark_of (state_of self.new) v) ≡ false) }
    {
        if let Mark::Unseen = self.marks[v as usize] {
            self.enter(v)?;
            self.run(adjacency)?;
        }
        Ok(())
    }

    /// Goes on until the path is empty.
    fn run(&mut self, adjacency: &Adjacency) -> Result<(), AllocError>
        requires { IsSearch adjacency.now.count adjacency.now.edges.items (state_of self.old) }
        ensures search { OnOk result (IsSearch adjacency.now.count adjacency.now.edges.items (state_of self.new)) }
        ensures empty { OnOk result (self.new.path.items ≡ []) }
        ensures seen { OnOk result (KeepsSeen (state_of self.old) (state_of self.new)) }
    {
        while let Some(bound) = self.bounds.last().copied() {
            match self.pending.last().copied() {
                Some(place) if bound <= place => self.advance(adjacency, place)?,
                _ => self.close(bound),
            }
        }
        Ok(())
    }

    /// Follows the next edge from the number at a place of the last segment, the last that is pending.
    fn advance(&mut self, adjacency: &Adjacency, place: usize) -> Result<(), AllocError>
        requires search { IsSearch adjacency.now.count adjacency.now.edges.items (state_of self.old) }
        requires pending { 0 < length self.old.pending.items }
        requires place { slice_index self.old.pending.items (length self.old.pending.items - 1) ≡ place }
        requires last { (bound : ℕ) → Contains self.old.bounds.items bound → bound ≤ place }
        ensures search { OnOk result (IsSearch adjacency.now.count adjacency.now.edges.items (state_of self.new)) }
        ensures seen { OnOk result (KeepsSeen (state_of self.old) (state_of self.new)) }
        ensures less { OnOk result
            (work_left adjacency.now.edges.items (state_of self.new) < work_left adjacency.now.edges.items (state_of self.old)) }
    {
        let v = self.path[place];
        let followed = self.followed[v as usize];
        let leaving = adjacency.leaving(v);
        if followed == leaving.len() {
            self.pending.pop();
            return Ok(());
        }
        self.meet(v, leaving[followed].1)?;
        self.followed[v as usize] = followed + 1;
        Ok(())
    }

    /// Follows an edge from `v`, a number of the last segment, to another number.
    fn meet(&mut self, v: u32, target: u32) -> Result<(), AllocError>
        requires v { v < length self.old.cyclic.items }
        requires target { target < length self.old.marks.items }
        requires rising { AllPairs (λ x y. x < y) self.old.bounds.items }
        ensures { OnOk result (state_of self.new ≡ meet v target (state_of self.old)) }
    {
        match self.marks[target as usize] {
            Mark::Unseen => self.enter(target),
            Mark::OnPath(place) => {
                self.note(v, target);
                self.join(place);
                Ok(())
            }
            Mark::Done => Ok(()),
        }
    }

    /// Notes an edge from a number to itself.
    fn note(&mut self, v: u32, target: u32)
        requires { v < length self.old.cyclic.items }
        ensures { state_of self.new ≡ note v target (state_of self.old) }
    {
        if target == v {
            self.cyclic[v as usize] = true;
        }
    }

    /// Makes one segment of all from that of a place on.
    fn join(&mut self, place: usize)
        requires { AllPairs (λ x y. x < y) self.old.bounds.items }
        ensures { state_of self.new ≡ join place (state_of self.old) }
    {
        let kept = self.bounds.partition_point(|bound| *bound <= place);
        self.bounds.truncate(kept);
    }

    /// Takes the last segment, which is a component, off the path.
    fn close(&mut self, bound: usize)
        requires numbers { All (λ v. (v < length self.old.marks.items) × (v < length self.old.cyclic.items)) self.old.path.items }
        requires within { bound ≤ length self.old.path.items }
        ensures { Closes bound (state_of self.old) (state_of self.new) }
    {
        let members = &self.path[bound..];
        assign(members, self.marks.as_mut_slice(), Mark::Done);
        note_cycles(members, self.cyclic.as_mut_slice());
        self.path.truncate(bound);
        self.bounds.pop();
    }
}

/// For each number whether it reaches itself.
pub fn cyclic_flags(alloc: Global, adjacency: &Adjacency) -> Result<Vec<bool>, AllocError>
    ensures len { IfOk result (λ cyclic. length cyclic.items ≡ adjacency.now.count) }
    ensures cyclic { IfOk result (λ cyclic. (v : ℕ) → v < adjacency.now.count
        → IsTrue (slice_index_or cyclic.items v false) ↔ Reaches adjacency.now.edges.items v v) }
{
    let mut search = Search::new(alloc, adjacency.count)?;
    for v in 0..adjacency.count {
        search.visit(adjacency, v)?;
    }
    let Search { cyclic, .. } = search;
    Ok(cyclic)
}

/// The numbers that reach themselves, rising.
pub fn cyclic_numbers(alloc: Global, adjacency: &Adjacency) -> Result<Vec<u32>, AllocError>
    ensures rising { IfOk result (λ numbers. IsStrictlyIncreasing numbers.items) }
    ensures cyclic { IfOk result (λ numbers. (v : ℕ) → Contains numbers.items v ↔ Reaches adjacency.now.edges.items v v) }
{
    let cyclic = cyclic_flags(alloc, adjacency)?;
    let mut numbers = Vec::new(alloc);
    for v in 0..adjacency.count {
        if cyclic[v as usize] {
            numbers.push(v)?;
        }
    }
    Ok(numbers)
}

/// Notes that the numbers of a component reach themselves, where it has several.
fn note_cycles(members: &[u32], cyclic: &mut [bool])
    requires { All (λ member. member < length cyclic.old) members.now }
    ensures { (v : ℕ) → v < length cyclic.old → slice_index_or cyclic.new v false
        ≡ (if list_any (nat_eq v) members.now && nat_lt 1 (length members.now) then true else slice_index_or cyclic.old v false) }
{
    if members.len() > 1 {
        assign(members, cyclic, true);
    }
}

/// Gives each of the numbers the value.
fn assign<T: Copy>(numbers: &[u32], values: &mut [T], value: T)
    requires { All (λ number. number < length values.old) numbers.now }
    ensures { (v : ℕ) (d : T) → v < length values.old
        → slice_index_or values.new v d ≡ (if list_any (nat_eq v) numbers.now then value else slice_index_or values.old v d) }
{
    for number in numbers {
        values[*number as usize] = value;
    }
}
