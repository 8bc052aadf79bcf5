//! The questions of a node.
ghost use Rattle.std.specs.Prelude.{◌≡◌, ◌<◌, ◌&&◌, length, Some, None, option_map, IfOk, IsTrue};
ghost use Rattle.fly_docs.specs.Plans.{PlanNode};
ghost use Rattle.fly_state.specs.OfPlan.{IsViewOfPlan};
ghost use Rattle.std.specs.Option.{option_copied};
ghost use Rattle.fly_state.specs.Plans.{node_numbered};
ghost use Rattle.fly_state.specs.States.{own_state, is_running, phase_of};
ghost use Rattle.fly_state.specs.Inputs.{inputs_of_node, value_in};
ghost use Rattle.fly_state.specs.Moves.{where_true, is_cached};
ghost use Rattle.fly_round.specs.Attempts.{HasAttempts};
ghost use Rattle.fly_round.specs.Questions as words;
ghost use Rattle.fly_round.specs.Questions.{AsksWhere, IsNameOf, HasPathsOfIds};

use crate::attempts::{attempt_at, known_at};
use fly_docs::{AttemptName, Task};
use fly_state::{At, InputFault, Known, Op, Phase, Plan, View, inputs_of, phase_at};
use fly_types::NoMemory;
use std::alloc::Global;

/// The first question of a node.
pub(crate) fn first_question(
    alloc: Global,
    plan: &Plan,
    v: &View,
    attempts: &[Option<usize>],
    number: u32,
) -> Result<Option<Op>, NoMemory>
    requires of_plan { IsViewOfPlan plan.now v.now }
    requires ids { HasPathsOfIds plan.now }
    requires known { HasAttempts plan.now v.now attempts.now }
    requires number { number < length plan.now.nodes }
    ensures { (p : PlanNode) → node_numbered plan.now number ≡ Some p
        → IfOk result (AsksWhere v.now.name (words.first_question plan.now v.now (number, p))) }
{
    plan.primary();
    match phase_at(&v.state, number) {
        Phase::Queued => look_up(alloc, plan, v, number),
        Phase::Running => attempt_question(alloc, plan, v, known_at(v, attempts, number), number),
        Phase::Succeeding => put(alloc, plan, v, number),
        _ => Ok(None),
    }
}

/// The second question of a node, where this is whether the catalog was found to lack its outputs.
pub(crate) fn second_question(
    alloc: Global,
    plan: &Plan,
    v: &View,
    missed: bool,
    number: u32,
) -> Result<Option<Op>, NoMemory>
    requires { number < length plan.now.nodes }
    ensures { (p : PlanNode) → node_numbered plan.now number ≡ Some p
        → IfOk result (AsksWhere v.now.name (words.second_in plan.now missed (number, p) (phase_of v.now.state number))) }
{
    match phase_at(&v.state, number) {
        Phase::Queued => reserve_if(alloc, plan, v, missed, number),
        Phase::Running => reserve_if(alloc, plan, v, true, number),
        _ => Ok(None),
    }
}

/// The outputs that the catalog has for a node whose task is cached.
fn look_up(alloc: Global, plan: &Plan, v: &View, number: u32) -> Result<Option<Op>, NoMemory>
    requires { number < length plan.now.nodes }
    ensures { (p : PlanNode) → node_numbered plan.now number ≡ Some p
        → IfOk result (AsksWhere v.now.name (where_true (is_cached plan.now p) (Some (words.look_up p.path)))) }
{
    plan.primary();
    match plan.task(number) {
        Some(task) if task.cached => Ok(Some(Op::Lookup {
            exec: v.name.copy(alloc)?,
            path: plan.path_of(number).copy(alloc)?,
        })),
        _ => Ok(None),
    }
}

/// A reservation for a node whose task needs one.
fn reserve_if(
    alloc: Global,
    plan: &Plan,
    v: &View,
    wanted: bool,
    number: u32,
) -> Result<Option<Op>, NoMemory>
    requires { number < length plan.now.nodes }
    ensures { (p : PlanNode) → node_numbered plan.now number ≡ Some p
        → IfOk result (AsksWhere v.now.name (where_true (words.is_reserved plan.now p && wanted) (Some (words.reserve p.path)))) }
{
    plan.primary();
    match plan.task(number) {
        Some(task) if wanted && task.cached && task.serializable => Ok(Some(Op::Reserve {
            exec: v.name.copy(alloc)?,
            path: plan.path_of(number).copy(alloc)?,
        })),
        _ => Ok(None),
    }
}

/// The outputs of a node are to be stored.
fn put(alloc: Global, plan: &Plan, v: &View, number: u32) -> Result<Option<Op>, NoMemory>
    requires { number < length plan.now.nodes }
    ensures { (p : PlanNode) → node_numbered plan.now number ≡ Some p
        → IfOk result (AsksWhere v.now.name (Some (words.put p.path))) }
{
    Ok(Some(Op::Put {
        exec: v.name.copy(alloc)?,
        path: plan.path_of(number).copy(alloc)?,
    }))
}

/// Of an attempt that runs: its launch, where the view has none, and else its end by its timeout.
fn attempt_question(
    alloc: Global,
    plan: &Plan,
    v: &View,
    known: Option<&Known>,
    number: u32,
) -> Result<Option<Op>, NoMemory>
    requires of_plan { IsViewOfPlan plan.now v.now }
    requires ids { HasPathsOfIds plan.now }
    requires number { number < length plan.now.nodes }
    requires runs { IsTrue (is_running (phase_of v.now.state number)) }
    ensures { (p : PlanNode) → node_numbered plan.now number ≡ Some p
        → option_copied known.entry ≡ words.known_attempt v.now p None (own_state v.now.state number).attempt
        → IfOk result (AsksWhere v.now.name (words.attempt_question plan.now v.now p None (own_state v.now.state number).attempt)) }
{
    match known {
        None => launch(alloc, plan, v, number),
        Some(known) => {
            if known.outcome.is_some() || timeout_of(plan, number) == 0 {
                return Ok(None);
            }
            Ok(Some(Op::Expire {
                name: attempt_name(alloc, plan, v, number)?,
            }))
        }
    }
}

/// The launch of a node's attempt with its inputs.
fn launch(alloc: Global, plan: &Plan, v: &View, number: u32) -> Result<Option<Op>, NoMemory>
    requires of_plan { IsViewOfPlan plan.now v.now }
    requires ids { HasPathsOfIds plan.now }
    requires number { number < length plan.now.nodes }
    requires runs { IsTrue (is_running (phase_of v.now.state number)) }
    ensures { (p : PlanNode) → node_numbered plan.now number ≡ Some p
        → IfOk result (AsksWhere v.now.name (option_map (words.launch p.path None (own_state v.now.state number).attempt)
        (value_in (inputs_of_node plan.now v.now.state p None)))) }
{
    let at = At {
        node: Some(number),
        item: None,
    };
    match inputs_of(alloc, plan, &v.state, &at) {
        Ok(inputs) => Ok(Some(Op::Launch {
            name: attempt_name(alloc, plan, v, number)?,
            inputs,
        })),
        Err(InputFault::NoMemory) => Err(NoMemory),
        Err(_) => Ok(None),
    }
}

/// The name of a node's present attempt.
fn attempt_name(alloc: Global, plan: &Plan, v: &View, number: u32) -> Result<AttemptName, NoMemory>
    requires of_plan { IsViewOfPlan plan.now v.now }
    requires ids { HasPathsOfIds plan.now }
    requires number { number < length plan.now.nodes }
    ensures { (p : PlanNode) → node_numbered plan.now number ≡ Some p
        → IfOk result (IsNameOf v.now.name p.path None (own_state v.now.state number).attempt) }
{
    Ok(AttemptName {
        exec: v.name.copy(alloc)?,
        path: plan.path_of(number).copy(alloc)?,
        item: None,
        attempt: attempt_at(&v.state, number),
    })
}

/// The timeout of a node's attempts: its own, and where that is 0 its task's.
fn timeout_of(plan: &Plan, number: u32) -> u64
    requires { number < length plan.now.nodes }
    ensures { (p : PlanNode) → node_numbered plan.now number ≡ Some p → result ≡ words.timeout_of plan.now p }
{
    plan.primary();
    let own = plan.node(number).timeout_ms;
    if own != 0 {
        return own;
    }
    match plan.task(number) {
        Some(task) => task.timeout_ms,
        None => 0,
    }
}
