//! The launches of a view, by node.
ghost use Rattle.std.specs.Prelude.{◌≡◌, ◌<◌, ◌==◌, ◌&&◌, ℕ, bytes_eq, IfSome, Option, length, slice_get, slice_set, Some, None, IfOk};
ghost use Rattle.std.specs.Option.{option_copied};
ghost use Rattle.fly_docs.specs.Plans.{PlanNode};
ghost use Rattle.fly_state.specs.Moves.{is_attempt, same_item};
ghost use Rattle.fly_state.specs.Plans.{RunPlan, node_numbered};
ghost use Rattle.fly_state.specs.States.{own_state};
ghost use Rattle.fly_round.specs.Questions as words;
ghost use Rattle.fly_round.specs.Attempts.{HasAttempts, is_number};

use fly_docs::AttemptName;
use fly_state::{ExecState, Known, Plan, View};
use fly_types::NoMemory;
use std::alloc::Global;

/// For each node the place of its present attempt among the launches, where it was launched. One pass over these.
pub(crate) fn attempts_of(
    alloc: Global,
    plan: &Plan,
    v: &View,
) -> Result<Vec<Option<usize>>, NoMemory>
    ensures { IfOk result (λ attempts. HasAttempts plan.now v.now attempts.items) }
{
    let _primary = plan.primary();
    let mut attempts = vec![in alloc; None; plan.len() as usize]?;
    for (place, known) in v.launches.as_slice().iter().enumerate() {
        if let Some(number) = present_attempt(plan, v, &known.name) {
            note(&mut attempts, number, place);
        }
    }
    Ok(attempts)
}

/// Notes the first place of a node.
fn note(attempts: &mut Vec<Option<usize>>, number: u32, place: usize)
    requires { number < length attempts.old.items }
    ensures noted { slice_get attempts.old.items number ≡ Some None → attempts.new.items ≡ slice_set attempts.old.items number (Some place) }
    ensures kept { (first : ℕ) → slice_get attempts.old.items number ≡ Some (Some first) → attempts.new.items ≡ attempts.old.items }
    ensures len { length attempts.new.items ≡ length attempts.old.items }
{
    let number = number as usize;
    if attempts[number].is_none() {
        attempts[number] = Some(place);
    }
}

/// The node whose present attempt has the name.
fn present_attempt(plan: &Plan, v: &View, name: &AttemptName) -> Option<u32>
    ensures present { (i : ℕ) (p : PlanNode) → node_numbered plan.now i ≡ Some p
        → is_attempt v.now p None (own_state v.now.state i).attempt name.now ≡ is_number i result }
    ensures within { IfSome result (λ n. n < length plan.now.nodes) }
{
    let _primary = plan.primary();
    if !is_own(v, name) {
        return None;
    }
    match plan.node_at(&name.path) {
        Some(number) => if_attempt(v, number, name.attempt),
        None => None,
    }
}

/// The node, where this is its present attempt.
fn if_attempt(v: &View, number: u32, attempt: u32) -> Option<u32>
    ensures present { (i : ℕ) → (i == number) && ((own_state v.now.state i).attempt == attempt) ≡ is_number i result }
    ensures same { IfSome result (λ n. n ≡ number) }
{
    if attempt_at(&v.state, number) == attempt {
        Some(number)
    } else {
        None
    }
}

/// Whether the name is of the view's execution, and of no item.
fn is_own(v: &View, name: &AttemptName) -> bool
    ensures { result ≡ same_item None name.now.item && bytes_eq v.now.name name.now.exec }
{
    match name.item {
        None => v.name == name.exec,
        Some(_) => false,
    }
}

/// The present attempt of a node.
pub(crate) fn attempt_at(state: &ExecState, number: u32) -> u32
    ensures { result ≡ (own_state state.now number).attempt }
{
    match state.nodes.get(number as usize) {
        Some(node) => node.own.attempt,
        None => 0,
    }
}

/// The present attempt of a node in the view, where it was launched.
pub(crate) fn known_at<'v>(
    v: &'v View,
    attempts: &[Option<usize>],
    number: u32,
) -> Option<&'v Known>
    ensures { (plan : RunPlan) (p : PlanNode) → node_numbered plan number ≡ Some p → HasAttempts plan v.now attempts.now
        → option_copied result ≡ words.known_attempt v.now p None (own_state v.now.state number).attempt }
{
    match place_at(attempts, number) {
        Some(place) => v.launches.get(place),
        None => None,
    }
}

/// What the table has for a node.
fn place_at(attempts: &[Option<usize>], number: u32) -> Option<usize>
    ensures { (first : Option ℕ) → slice_get attempts.now number ≡ Some first → result ≡ first }
{
    match attempts.get(number as usize) {
        Some(place) => *place,
        None => None,
    }
}
