//! What the attempts of a task node come to.
ghost use Rattle.std.specs.Prelude.{◌≡◌, ◌<◌, ◌+◌, [], Some, unwrap_or, length, IfOk};
ghost use Rattle.fly_docs.specs.Plans.{PlanNode};
ghost use Rattle.fly_policy.specs.Retries.{next_of};
ghost use Rattle.fly_state.specs.Moves as words;
ghost use Rattle.fly_state.specs.Plans.{node_numbered};
ghost use Rattle.fly_eval.specs.Attempts.{attempts_of};
ghost use Rattle.fly_eval.specs.Evaluation as evaluation;
ghost use Rattle.fly_eval.specs.Evaluation.{node_slot};
ghost use Rattle.fly_eval.specs.Judging as judging;
ghost use Rattle.fly_eval.specs.Judging.{attempts_in};
ghost use Rattle.fly_eval.specs.Tables.{AreRecords};

use crate::Verdict;
use crate::tables::{Records, answer_at, outcome_at};
use fly_policy::{Next, Outcome, after_attempt};
use fly_state::Plan;
use fly_types::{List, LiteralMap, NoMemory, Text, TryCopy};
use std::alloc::Global;

/// What attempts come to, and how many there are, an awaited one included.
#[derive(Drop)]
pub(crate) struct Attempted {
    pub verdict: Verdict,
    pub count: usize,
}

/// The attempts of a task node that is entered: none where the catalog has its outputs, or has yet to answer.
pub(crate) fn task_attempts(
    alloc: Global,
    plan: &Plan,
    records: &Records<'_>,
    number: u32,
) -> Result<Attempted, NoMemory>
    requires number { number < length plan.now.nodes }
    requires recorded { AreRecords plan.now records.now.results.now records.now.hits.now records.now }
    ensures { (p : PlanNode) → node_numbered plan.now number ≡ Some p
        → IfOk result (λ made. attempts_in made ≡ evaluation.task_attempts plan.now records.now.results.now records.now.hits.now p) }
{
    if !is_cached(plan, number) {
        return run_attempts(alloc, plan, records, number);
    }
    match answer_at(plan, records, number) {
        None => Ok(Attempted {
            verdict: Verdict::Pending,
            count: 0,
        }),
        Some(Some(outputs)) => Ok(Attempted {
            verdict: Verdict::Succeeded(outputs.copy(alloc)?),
            count: 0,
        }),
        Some(None) => run_attempts(alloc, plan, records, number),
    }
}

/// The attempts by their results: one after another, as long as the last one calls for another.
fn run_attempts(
    alloc: Global,
    plan: &Plan,
    records: &Records<'_>,
    number: u32,
) -> Result<Attempted, NoMemory>
    requires number { number < length plan.now.nodes }
    requires recorded { AreRecords plan.now records.now.results.now records.now.hits.now records.now }
    ensures { (p : PlanNode) → node_numbered plan.now number ≡ Some p
        → IfOk result (λ made. attempts_in made ≡ attempts_of records.now.results.now (node_slot p) (words.attempt_limit plan.now p)) }
{
    let retries = retries_of(plan, number);
    let mut attempt: u32 = 0;
    'attempts: loop {
        let Some(outcome) = outcome_at(plan, records, number, attempt) else {
            return Ok(awaited(attempt));
        };
        let next = next_after(outcome, attempt, retries);
        if is_again(next) {
            attempt += 1;
        } else {
            return Ok(Attempted {
                verdict: verdict_after(alloc, outcome, next)?,
                count: attempt as usize + 1,
            });
        }
    }
}

/// The attempt of this number is awaited.
fn awaited(attempt: u32) -> Attempted
    ensures { attempts_in result ≡ record { verdict = Verdict.Pending; count = attempt + 1 } }
{
    let count = attempt as usize + 1;
    Attempted {
        verdict: Verdict::Pending,
        count,
    }
}

/// How many attempts of the node may follow the first.
fn retries_of(plan: &Plan, number: u32) -> u32
    requires { number < length plan.now.nodes }
    ensures { (p : PlanNode) → node_numbered plan.now number ≡ Some p → result + 1 ≡ words.attempt_limit plan.now p }
{
    plan.primary();
    let own = plan.node(number).retries;
    if own != 0 {
        return own;
    }
    match plan.task(number) {
        Some(task) => task.retries,
        None => 0,
    }
}

/// Whether the node's outputs are cached.
fn is_cached(plan: &Plan, number: u32) -> bool
    requires { number < length plan.now.nodes }
    ensures { (p : PlanNode) → node_numbered plan.now number ≡ Some p → result ≡ words.is_cached plan.now p }
{
    match plan.task(number) {
        Some(task) => task.cached,
        None => false,
    }
}

/// Whether another attempt follows.
fn is_again(next: Next) -> bool
    ensures { result ≡ judging.is_again next }
{
    matches!(next, Next::Again)
}

/// What follows an attempt, where so many may follow the first.
fn next_after(outcome: &Outcome, attempt: u32, retries: u32) -> Next
    ensures { result ≡ next_of outcome.now attempt (retries + 1) }
{
    let limit = if attempt < retries { 2 } else { 1 };
    after_attempt(outcome, 0, limit)
}

/// What the node comes to by the outcome of its last attempt.
fn verdict_after(alloc: Global, outcome: &Outcome, next: Next) -> Result<Verdict, NoMemory>
    ensures { IfOk result (λ v. v ≡ judging.verdict_after outcome.now next) }
{
    match next {
        Next::Done => Ok(Verdict::Succeeded(outputs_of(alloc, outcome)?)),
        Next::Failed => Ok(Verdict::Failed {
            code: code_of(alloc, outcome)?,
        }),
        Next::TimedOut => Ok(Verdict::TimedOut),
        Next::Again => Ok(Verdict::Pending),
    }
}

/// The outputs of an attempt that succeeded.
fn outputs_of(alloc: Global, outcome: &Outcome) -> Result<LiteralMap, NoMemory>
    ensures { IfOk result (λ m. m ≡ unwrap_or (words.outputs_of_outcome outcome.now) (record { entries = [] })) }
{
    match outcome {
        Outcome::Succeeded(outputs) => outputs.copy(alloc),
        _ => Ok(LiteralMap {
            entries: List::from_vec(Vec::new(alloc)),
        }),
    }
}

/// The code with which an attempt failed.
fn code_of(alloc: Global, outcome: &Outcome) -> Result<Text, NoMemory>
    ensures { IfOk result (λ code. code ≡ unwrap_or (words.code_of_outcome outcome.now) []) }
{
    match outcome {
        Outcome::Recoverable { code, .. } | Outcome::Fatal { code, .. } => code.copy(alloc),
        _ => Ok(Text::from_string(String::new(alloc))),
    }
}
