//! What a journal records, in a list for each execution.
ghost use Rattle.std.specs.Prelude.{◌≡◌, ℕ, ◌+◌, ◌<◌, ◌++◌, ◌∷◌, List as Listed, [], length, flat_map, option_to_list, IfOk, OnOk, vec_len};
ghost use Rattle.fly_world.specs.ReadOff.{results_by, hits_of_move};
ghost use Rattle.fly_world.specs.ReadOff as words;
ghost use Rattle.fly_verdicts.specs.Grouped.{Settled as SettledItem, Answered as AnsweredItem, lists_of, HasListsFrom, HasLists, HasNumbersBelow, more_at, settled_at, answered_at};

use fly_docs::AttemptName;
use fly_policy::Outcome;
use fly_state::{Entry, Move, Op, Reply, Step};
use fly_types::{List, LiteralMap, NoMemory, Text};
use fly_world::World;
use std::alloc::Global;
use std::collections::BTreeMap;
use std::mem;

/// What an attempt came to.
type Settled = (AttemptName, Outcome);

/// What the catalog answered for a node: the outputs that it had, or none.
type Answered = (List<Text>, Option<LiteralMap>);

/// What the attempts of each execution came to, by the numbers of executions.
pub(crate) fn settled_lists(
    alloc: Global,
    world: &World<'_>,
    numbers: &BTreeMap<Text, u32>,
) -> Result<Vec<Vec<(AttemptName, Outcome)>>, NoMemory>
    requires { HasNumbersBelow (length world.now.world.executions) numbers.now }
    ensures { IfOk result (λ table. HasLists (length world.now.world.executions)
        (λ i. settled_at numbers.now i world.now.world.entries) (lists_of table.items)) }
{
    let mut table = empty_lists(alloc, world.executions())?;
    for place in 0..world.len() {
        add_settled(alloc, &mut table, numbers, world.entry(place))?;
    }
    Ok(table)
}

/// What the catalog answered for the nodes of each execution, by the numbers of executions.
pub(crate) fn answered_lists(
    alloc: Global,
    world: &World<'_>,
    numbers: &BTreeMap<Text, u32>,
) -> Result<Vec<Vec<(List<Text>, Option<LiteralMap>)>>, NoMemory>
    requires { HasNumbersBelow (length world.now.world.executions) numbers.now }
    ensures { IfOk result (λ table. HasLists (length world.now.world.executions)
        (λ i. answered_at world.now.world.entries numbers.now i world.now.world.entries) (lists_of table.items)) }
{
    let mut table = empty_lists(alloc, world.executions())?;
    for place in 0..world.len() {
        add_answered(alloc, &mut table, world, numbers, world.entry(place))?;
    }
    Ok(table)
}

/// Takes the list of a number out of a table, which has an empty one there then.
pub(crate) fn take_list<T: Drop>(alloc: Global, table: &mut Vec<Vec<T>>, number: u32) -> List<T>
    requires { number < vec_len table.old }
    ensures { (count : ℕ) (of : ℕ → Listed T) → HasListsFrom number count of (lists_of table.old.items)
        → (result ≡ of number) × HasListsFrom (number + 1) count of (lists_of table.new.items) }
{
    let list = mem::replace(&mut table[number as usize], Vec::new(alloc));
    List::from_vec(list)
}

/// So many empty lists.
fn empty_lists<T: Drop>(alloc: Global, count: u32) -> Result<Vec<Vec<T>>, NoMemory>
    ensures { IfOk result (λ table. HasLists count (λ i. []) (lists_of table.items)) }
{
    let mut table = Vec::new(alloc);
    for _number in 0..count {
        table.push(Vec::new(alloc))?;
    }
    Ok(table)
}

/// Adds an item to the list of a number.
fn push_at<T: Drop>(table: &mut Vec<Vec<T>>, number: u32, item: T) -> Result<(), NoMemory>
    requires { number < vec_len table.old }
    ensures { OnOk result ((count : ℕ) (of : ℕ → Listed T) → HasLists count of (lists_of table.old.items)
        → HasLists count (more_at of number (item ∷ [])) (lists_of table.new.items)) }
{
    table[number as usize].push(item)?;
    Ok(())
}

/// Adds what an entry settles to the list of its execution.
fn add_settled(
    alloc: Global,
    table: &mut Vec<Vec<Settled>>,
    numbers: &BTreeMap<Text, u32>,
    entry: &Entry,
) -> Result<(), NoMemory>
    requires { HasNumbersBelow (vec_len table.old) numbers.now }
    ensures { OnOk result ((count : ℕ) (of : ℕ → Listed SettledItem) → HasLists count of (lists_of table.old.items)
        → HasLists count (λ i. of i ++ settled_at numbers.now i (entry.now ∷ [])) (lists_of table.new.items)) }
{
    let Some(settled) = settled_by(alloc, entry)? else {
        return Ok(());
    };
    match numbers.get(&settled.0.exec) {
        Some(number) => push_at(table, *number, settled),
        None => Ok(()),
    }
}

/// The attempt that an entry settles, with what it came to.
fn settled_by(alloc: Global, entry: &Entry) -> Result<Option<Settled>, NoMemory>
    ensures { IfOk result (λ settled. option_to_list settled ≡ results_by entry.now.op entry.now.reply) }
{
    match (&entry.op, &entry.reply) {
        (Op::Finish { name, outcome }, Reply::Recorded) => {
            Ok(Some((name.copy(alloc)?, outcome.copy(alloc)?)))
        }
        (Op::Finish { name, .. }, Reply::Expired) | (Op::Expire { name }, Reply::Expired) => {
            Ok(Some((name.copy(alloc)?, Outcome::TimedOut)))
        }
        _ => Ok(None),
    }
}

/// Adds what the moves of an entry cite of the catalog to the list of its execution.
fn add_answered(
    alloc: Global,
    table: &mut Vec<Vec<Answered>>,
    world: &World<'_>,
    numbers: &BTreeMap<Text, u32>,
    entry: &Entry,
) -> Result<(), NoMemory>
    requires { HasNumbersBelow (vec_len table.old) numbers.now }
    ensures { OnOk result ((count : ℕ) (of : ℕ → Listed AnsweredItem) → HasLists count of (lists_of table.old.items)
        → HasLists count (λ i. of i ++ answered_at world.now.world.entries numbers.now i (entry.now ∷ []))
        (lists_of table.new.items)) }
{
    let (Op::Write { exec, moves, .. }, Reply::Written(_)) = (&entry.op, &entry.reply) else {
        return Ok(());
    };
    match numbers.get(exec) {
        Some(number) => add_answers(alloc, table, world, *number, moves.as_slice()),
        None => Ok(()),
    }
}

/// Adds what moves cite of the catalog to the list of a number.
fn add_answers(
    alloc: Global,
    table: &mut Vec<Vec<Answered>>,
    world: &World<'_>,
    number: u32,
    moves: &[Move],
) -> Result<(), NoMemory>
    requires { number < vec_len table.old }
    ensures { OnOk result ((count : ℕ) (of : ℕ → Listed AnsweredItem) → HasLists count of (lists_of table.old.items)
        → HasLists count (more_at of number (flat_map (hits_of_move world.now.world.entries) moves.now))
        (lists_of table.new.items)) }
{
    for cited in moves {
        let answered = answered_by(alloc, world, cited)?;
        push_found(table, number, answered)?;
    }
    Ok(())
}

/// Adds an item to the list of a number, where there is one.
fn push_found<T: Drop>(
    table: &mut Vec<Vec<T>>,
    number: u32,
    item: Option<T>,
) -> Result<(), NoMemory>
    requires { number < vec_len table.old }
    ensures { OnOk result ((count : ℕ) (of : ℕ → Listed T) → HasLists count of (lists_of table.old.items)
        → HasLists count (more_at of number (option_to_list item)) (lists_of table.new.items)) }
{
    match item {
        Some(item) => push_at(table, number, item),
        None => Ok(()),
    }
}

/// What the catalog answered at the place that a move cites.
fn answered_by(alloc: Global, world: &World<'_>, cited: &Move) -> Result<Option<Answered>, NoMemory>
    ensures { IfOk result (λ answered. option_to_list answered ≡ hits_of_move world.now.world.entries cited.now) }
{
    let Some(place) = lookup_place(cited.step) else {
        return Ok(None);
    };
    if place < world.len() {
        lookup_result(alloc, world.entry(place))
    } else {
        Ok(None)
    }
}

/// The place of the look-up that a step cites.
fn lookup_place(step: Step) -> Option<u64>
    ensures { result ≡ words.lookup_place step }
{
    match step {
        Step::Hit(place) => Some(place),
        Step::Run { miss, .. } => miss,
        _ => None,
    }
}

/// What a look-up found for its path.
fn lookup_result(alloc: Global, entry: &Entry) -> Result<Option<Answered>, NoMemory>
    ensures { IfOk result (λ answered. option_to_list answered ≡ words.lookup_result entry.now) }
{
    match (&entry.op, &entry.reply) {
        (Op::Lookup { path, .. }, Reply::Hit(content)) => {
            Ok(Some((path.copy(alloc)?, Some(content.copy(alloc)?))))
        }
        (Op::Lookup { path, .. }, Reply::Miss) => Ok(Some((path.copy(alloc)?, None))),
        _ => Ok(None),
    }
}
