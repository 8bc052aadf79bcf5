//! What a run comes to.
ghost use Rattle.std.specs.Prelude.{◌≡◌, ◌&&◌, not, IfOk};
ghost use Rattle.std.specs.List.{list_any};
ghost use Rattle.fly_docs.specs.TypedClosures.{IsTypedClosure};
ghost use Rattle.fly_state.specs.Plans.{plan_for};
ghost use Rattle.fly_state.specs.PlanTables.{IsPlannable};
ghost use Rattle.fly_state.specs.Values.{HasKnownTypes};
ghost use Rattle.fly_types.specs.declared.literals.LiteralMap as literals;
ghost use Rattle.fly_eval.specs.Evaluation as words;
ghost use Rattle.fly_eval.specs.Evaluation.{evaluation_of, root_verdict};
ghost use Rattle.fly_eval.specs.Judging.{TellsAll};
ghost use Rattle.fly_eval.specs.Laws.{HasResultsOf, HasHitsOf, IsKeptEvaluation};
ghost use Rattle.fly_eval.specs.Records.{AreTypedRecords};
ghost use Rattle.fly_eval.specs.declared.results.Results as recorded;
ghost use Rattle.fly_eval.specs.declared.results.Hits as answers;

use crate::passes::{Pass, judge_all};
use crate::tables::records_of;
use crate::{Evaluated, Hits, Results, Seen, Verdict};
use fly_docs::{Closure, Workflow};
use fly_state::{Plan, ValueFault, has_failure, misses_output, run_outputs};
use fly_types::{LiteralMap, NoMemory, Text};
use std::alloc::Global;

/// Plain evaluation of a run of a closure of task nodes, over what is recorded of its attempts and of the catalog.
///
/// Costs one pass over the plan and over what is recorded, and a copy of the inputs of each attempt.
pub fn evaluate(
    alloc: Global,
    c: &Closure,
    inputs: &LiteralMap,
    results: &Results,
    hits: &Hits,
) -> Result<Evaluated, NoMemory>
    requires plannable { IsPlannable c.now }
    requires compiled { IsTypedClosure c.now }
    requires typed { AreTypedRecords (plan_for c.now) inputs.now results.now hits.now }
    ensures evaluates { IfOk result (λ e. e ≡ evaluation_of (plan_for c.now) inputs.now results.now hits.now) }
    ensures monotone { IfOk result (λ e. (later : recorded.Results) (later_hits : answers.Hits) → HasResultsOf later results.now
        → HasHitsOf later_hits hits.now → IsKeptEvaluation e (evaluation_of (plan_for c.now) inputs.now later later_hits)) }
{
    let plan = Plan::expand(alloc, c)?;
    evaluate_by_plan(alloc, &plan, inputs, results, hits)
}

/// Plain evaluation of a run by its plan, as `evaluate`.
pub fn evaluate_by_plan(
    alloc: Global,
    plan: &Plan,
    inputs: &LiteralMap,
    results: &Results,
    hits: &Hits,
) -> Result<Evaluated, NoMemory>
    requires typed { AreTypedRecords plan.now inputs.now results.now hits.now }
    ensures { IfOk result (λ e. e ≡ evaluation_of plan.now inputs.now results.now hits.now) }
{
    plan.primary();
    let records = records_of(alloc, plan, results, hits)?;
    let pass = judge_all(alloc, plan, inputs, &records)?;
    let root = root_of(alloc, plan, &pass)?;
    Ok(Evaluated {
        root,
        list: pass.seen,
    })
}

/// What the run comes to, where all nodes are judged.
fn root_of(alloc: Global, plan: &Plan, pass: &Pass) -> Result<Verdict, NoMemory>
    requires { HasKnownTypes plan.now pass.now.state }
    ensures { (inputs : literals.LiteralMap) (given : recorded.Results) (hits : answers.Hits) → TellsAll plan.now inputs given hits pass.now
        → IfOk result (λ v. v ≡ root_verdict plan.now inputs given hits) }
{
    let primary = plan.primary();
    let fails = has_failure(plan, &pass.state);
    if ends_at_once(primary, fails) {
        return failed(alloc, "NodeFailed");
    }
    if has_pending(pass.seen.as_slice()) {
        return Ok(Verdict::Pending);
    }
    if fails {
        return failed(alloc, "NodeFailed");
    }
    if misses_output(plan, &pass.state, primary.outputs.as_slice()) {
        return failed(alloc, "OutputMissing");
    }
    match run_outputs(alloc, plan, &pass.state) {
        Ok(outputs) => Ok(Verdict::Succeeded(outputs)),
        Err(ValueFault::Outside(_)) => failed(alloc, "EnumOutside"),
        Err(ValueFault::Unknown) => failed(alloc, ""),
        Err(ValueFault::NoMemory) => Err(NoMemory),
    }
}

/// Whether a failure, where there is one, ends the run at once.
fn ends_at_once(w: &Workflow, fails: bool) -> bool
    ensures { result ≡ (not w.now.fail_late && fails) }
{
    !w.fail_late && fails
}

fn failed(alloc: Global, code: &str) -> Result<Verdict, NoMemory>
    ensures { IfOk result (λ v. v ≡ Verdict.Failed code.now) }
{
    Ok(Verdict::Failed {
        code: Text::from_str(alloc, code)?,
    })
}

/// Whether a node is open.
fn has_pending(seen: &[Seen]) -> bool
    ensures { result ≡ list_any (λ s. words.is_pending s.verdict) seen.now }
{
    for node in seen {
        match node.verdict {
            Verdict::Pending => return true,
            _ => {}
        }
    }
    false
}
