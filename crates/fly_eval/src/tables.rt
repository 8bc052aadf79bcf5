//! What is recorded, by the numbers of the nodes.
ghost use Rattle.std.specs.Prelude.{◌≡◌, ◌<◌, map, length, position, Some, IfOk};
ghost use Rattle.std.specs.BTreeMap.{get};
ghost use Rattle.std.specs.Option.{option_copied};
ghost use Rattle.std.specs.Ordering.{is_eq};
ghost use Rattle.fly_docs.specs.Plans.{PlanNode};
ghost use Rattle.fly_state.specs.Plans.{node_numbered, number_of};
ghost use Rattle.fly_eval.specs.Evaluation.{node_slot};
ghost use Rattle.fly_eval.specs.Results.{result_of, hit_of};
ghost use Rattle.fly_eval.specs.Tables.{attempt_key, AreRecords};

use crate::{Hits, Results};
use fly_docs::AttemptName;
use fly_policy::Outcome;
use fly_state::Plan;
use fly_types::{List, LiteralMap, NoMemory, Text};
use std::alloc::Global;
use std::collections::BTreeMap;

/// What is recorded of an execution, with tables of where it stands in its lists.
#[derive(Drop)]
pub(crate) struct Records<'r> {
    pub results: &'r Results,
    pub hits: &'r Hits,
    /// The first place of each attempt of a node, by their numbers.
    pub outcomes: BTreeMap<Option<(u32, u32)>, usize>,
    /// The first place of each node, by its number.
    pub answers: BTreeMap<Option<u32>, usize>,
}

/// The tables of what is recorded. One pass over it.
pub(crate) fn records_of<'r>(
    alloc: Global,
    plan: &Plan,
    results: &'r Results,
    hits: &'r Hits,
) -> Result<Records<'r>, NoMemory>
    ensures { IfOk result (AreRecords plan.now results.now hits.now) }
{
    let attempts = attempt_keys(alloc, plan, results.list.as_slice())?;
    let nodes = node_numbers(alloc, plan, hits.list.as_slice())?;
    Ok(Records {
        results,
        hits,
        outcomes: first_places(alloc, &attempts)?,
        answers: first_places(alloc, &nodes)?,
    })
}

/// For each key the first place at which it stands.
fn first_places<K: Ord + Copy + Drop>(
    alloc: Global,
    keys: &[K],
) -> Result<BTreeMap<K, usize>, NoMemory>
    ensures { IfOk result (λ places. (key : K) → get K.cmp places key ≡ position (λ k. is_eq (K.cmp key k)) keys.now) }
{
    let mut places = BTreeMap::new(alloc);
    for (place, key) in keys.iter().enumerate() {
        if places.get(key).is_none() {
            places.insert(*key, place)?;
        }
    }
    Ok(places)
}

/// The keys of the attempts: none for one of an item, or of a node that the plan does not have.
fn attempt_keys(
    alloc: Global,
    plan: &Plan,
    results: &[(AttemptName, Outcome)],
) -> Result<Vec<Option<(u32, u32)>>, NoMemory>
    ensures { IfOk result (λ keys. keys.items ≡ map (λ r. attempt_key plan.now r.0) results.now) }
{
    let mut keys = Vec::with_capacity(alloc, results.len())?;
    for result in results {
        keys.push(key_of(plan, &result.0))?;
    }
    Ok(keys)
}

fn key_of(plan: &Plan, name: &AttemptName) -> Option<(u32, u32)>
    ensures { result ≡ attempt_key plan.now name.now }
{
    match name.item {
        Some(_) => None,
        None => match plan.node_at(&name.path) {
            Some(number) => Some((number, name.attempt)),
            None => None,
        },
    }
}

/// The numbers of the nodes: none for a path that the plan does not have.
fn node_numbers(
    alloc: Global,
    plan: &Plan,
    hits: &[(List<Text>, Option<LiteralMap>)],
) -> Result<Vec<Option<u32>>, NoMemory>
    ensures { IfOk result (λ numbers. numbers.items ≡ map (λ h. number_of plan.now h.0) hits.now) }
{
    let mut numbers = Vec::with_capacity(alloc, hits.len())?;
    for hit in hits {
        numbers.push(plan.node_at(&hit.0))?;
    }
    Ok(numbers)
}

/// What the attempt of this number of a node came to, where that is recorded.
pub(crate) fn outcome_at<'r>(
    plan: &Plan,
    records: &Records<'r>,
    number: u32,
    attempt: u32,
) -> Option<&'r Outcome>
    requires { AreRecords plan.now records.now.results.now records.now.hits.now records.now }
    ensures { (p : PlanNode) → node_numbered plan.now number ≡ Some p
        → option_copied result ≡ result_of records.now.results.now (node_slot p) attempt }
{
    plan.primary();
    match records.outcomes.get(&Some((number, attempt))) {
        Some(place) => match records.results.list.get(*place) {
            Some(recorded) => Some(&recorded.1),
            None => None,
        },
        None => None,
    }
}

/// What the catalog answered for a node, where that is recorded.
pub(crate) fn answer_at<'r>(
    plan: &Plan,
    records: &Records<'r>,
    number: u32,
) -> Option<&'r Option<LiteralMap>>
    requires { AreRecords plan.now records.now.results.now records.now.hits.now records.now }
    ensures { (p : PlanNode) → node_numbered plan.now number ≡ Some p → option_copied result ≡ hit_of records.now.hits.now p.path }
{
    plan.primary();
    match records.answers.get(&Some(number)) {
        Some(place) => match records.hits.list.get(*place) {
            Some(hit) => Some(&hit.1),
            None => None,
        },
        None => None,
    }
}
