//! Reads of executions, and their views.
ghost use Rattle.std.specs.Prelude.{◌≡◌, Some, IfOk, IfSome, option_map, slice_get};
ghost use Rattle.fly_world.specs.Answers.{answer_in, CanMakeAnswer};
ghost use Rattle.fly_world.specs.Steps as steps;
ghost use Rattle.fly_world.specs.Store.{IsSound, execution_numbered};
ghost use Rattle.fly_world.specs.Views.{first_between};
ghost use Rattle.fly_world.specs.World as words;
ghost use Rattle.fly_world.specs.World.{view_of, launches_of, world_before};

use crate::answers::{Answer, says};
use crate::store::Store;
use fly_attempts::Launch;
use fly_policy::Outcome;
use fly_state::{Known, Reply, View};
use fly_types::{List, NoMemory, Text};

/// What is read: the first execution that is not over, from a place on and around, so many versions back.
pub(crate) fn on_read(store: &Store, from: u64, back: u64) -> Result<Option<Answer>, NoMemory>
    ensures answer { IfOk result (λ a. answer_in store.now a ≡ steps.on_read store.now.world from back) }
    ensures change { IfOk result (CanMakeAnswer store.now) }
{
    let Some(number) = read_number(store, from) else {
        return Ok(Some(says(Reply::Idle)));
    };
    let Some(versions) = store.execution(number) else {
        return Ok(Some(says(Reply::Idle)));
    };
    let current = versions.number();
    Ok(Some(says(Reply::Viewed {
        exec: versions.submission().name.copy(store.alloc())?,
        version: current.saturating_sub(back),
        current,
    })))
}

/// The number of the first execution that is not over, at or cyclically after a place.
fn read_number(store: &Store, from: u64) -> Option<usize>
    ensures { result ≡ option_map (λ at. at.0) (steps.read_execution store.now.world from) }
{
    let count = store.execution_count();
    if count == 0 {
        return None;
    }
    let start = (from % count as u64) as usize;
    match first_going_on(store, start, count) {
        Some(number) => Some(number),
        None => first_going_on(store, 0, start),
    }
}

/// The number of the first execution that is not over, of those from a number on and below another.
fn first_going_on(store: &Store, from: usize, end: usize) -> Option<usize>
    ensures { result ≡ option_map (λ at. at.0) (first_between store.now.world from end) }
{
    for number in from..end {
        if let Some(versions) = store.execution(number) {
            if !versions.is_over() {
                return Some(number);
            }
        }
    }
    None
}

/// One version of the execution of a number, as it last stood while that version was current.
pub(crate) fn view_at(store: &Store, number: usize, version: u64) -> Result<Option<View>, NoMemory>
    requires { IsSound store.now }
    ensures { IfOk result (λ v. v ≡ option_map (λ at. view_of store.now.world at version) (execution_numbered store.now.world number)) }
{
    if number >= store.execution_count() {
        return Ok(None);
    }
    let Some(versions) = store.execution(number) else {
        unreachable!();
    };
    let alloc = store.alloc();
    let name = &versions.submission().name;
    Ok(Some(View {
        exec: number as u32,
        name: name.copy(alloc)?,
        version,
        current: versions.number(),
        state: versions.copy_at(alloc, version)?,
        launches: launches_before(store, name, versions.end_of(version))?,
    }))
}

/// The launches of an execution, with what was known of them before an end.
fn launches_before(store: &Store, exec: &Text, end: Option<u64>) -> Result<List<Known>, NoMemory>
    requires { IsSound store.now }
    ensures { IfOk result (λ known. known ≡ launches_of (world_before store.now.world end) exec.now) }
{
    let numbers = store.attempts().of_execution(exec);
    let mut all = Vec::with_capacity(store.alloc(), numbers.len())?;
    for number in numbers {
        let launch = store.attempts().launched(*number);
        if stands_before(end, launch.place) {
            all.push(known_before(store, *number, launch, end)?)?;
        }
    }
    Ok(List::from_vec(all))
}

/// What was known of a launch before an end.
fn known_before(
    store: &Store,
    number: usize,
    launch: &Launch,
    end: Option<u64>,
) -> Result<Known, NoMemory>
    requires sound { IsSound store.now }
    requires there { slice_get store.now.world.launches number ≡ Some launch.now }
    ensures { IfOk result (λ known. known ≡ words.known_of (world_before store.now.world end) launch.now) }
{
    Ok(Known {
        name: launch.name.copy(store.alloc())?,
        claimed: was_claimed(store, number, end),
        outcome: outcome_before(store, number, end)?,
    })
}

/// Whether the attempt of a number was handed out before an end.
fn was_claimed(store: &Store, number: usize, end: Option<u64>) -> bool
    requires { IsSound store.now }
    ensures { IfSome (slice_get store.now.world.launches number)
        (λ l. result ≡ words.is_claimed (world_before store.now.world end) l.name) }
{
    match store.attempts().claim_of(number) {
        Some(handout) => stands_before(end, handout.place),
        None => false,
    }
}

/// What the attempt of a number had come to before an end.
fn outcome_before(
    store: &Store,
    number: usize,
    end: Option<u64>,
) -> Result<Option<Outcome>, NoMemory>
    requires { IsSound store.now }
    ensures { IfSome (slice_get store.now.world.launches number)
        (λ l. IfOk result (λ o. o ≡ words.outcome_of (world_before store.now.world end) l.name)) }
{
    match store.attempts().outcome_of(number) {
        Some(ending) => {
            if stands_before(end, ending.place) {
                Ok(Some(ending.outcome.copy(store.alloc())?))
            } else {
                Ok(None)
            }
        }
        None => Ok(None),
    }
}

/// Whether what stands at a place stood before this end. None is no end.
fn stands_before(end: Option<u64>, place: u64) -> bool
    ensures { result ≡ words.stands_before end place }
{
    match end {
        Some(end) => place < end,
        None => true,
    }
}
