//! What one node comes to, over a state that tells those that it looks at.
ghost use Rattle.std.specs.Prelude.{◌≡◌, ◌<◌, [], Some, replicate, length, IfOk};
ghost use Rattle.fly_docs.specs.Plans.{PlanNode};
ghost use Rattle.fly_state.specs.Plans.{node_numbered};
ghost use Rattle.fly_state.specs.Values.{HasKnownTypes};
ghost use Rattle.fly_eval.specs.Evaluation as evaluation;
ghost use Rattle.fly_eval.specs.Judging.{entering_over, IsJudged};
ghost use Rattle.fly_eval.specs.Tables.{AreRecords};

use crate::Verdict;
use crate::attempts::task_attempts;
use crate::tables::Records;
use fly_state::{ExecState, Plan, Standing, ValueFault, task_inputs};
use fly_types::{List, LiteralMap, NoMemory, Text, TryCopy};
use std::alloc::Global;

/// What a node comes to, with the inputs of its attempts.
#[derive(Drop)]
pub(crate) struct Judged {
    pub verdict: Verdict,
    pub attempts: List<LiteralMap>,
}

/// What a node comes to, where those that it looks at stand as the state and `known` tell.
pub(crate) fn judge(
    alloc: Global,
    plan: &Plan,
    records: &Records<'_>,
    state: &ExecState,
    known: &[Standing],
    number: u32,
) -> Result<Judged, NoMemory>
    requires number { number < length plan.now.nodes }
    requires recorded { AreRecords plan.now records.now.results.now records.now.hits.now records.now }
    requires types { HasKnownTypes plan.now state.now }
    ensures { (p : PlanNode) → node_numbered plan.now number ≡ Some p
        → IfOk result (IsJudged plan.now records.now.results.now records.now.hits.now p (entering_over plan.now state.now known.now number p)) }
{
    plan.primary();
    match plan.standing_by(state, number, known) {
        Standing::Waiting => Ok(untried(alloc, Verdict::Pending)),
        Standing::Blocked => Ok(untried(alloc, Verdict::Blocked)),
        Standing::Skipped => Ok(untried(alloc, Verdict::Skipped)),
        Standing::Ready => match task_inputs(alloc, plan, state, number) {
            Ok(given) => tried(alloc, plan, records, number, &given),
            Err(ValueFault::Outside(_)) => Ok(untried(
                alloc,
                Verdict::Failed {
                    code: Text::from_str(alloc, "EnumOutside")?,
                },
            )),
            Err(ValueFault::Unknown) => Ok(untried(
                alloc,
                Verdict::Failed {
                    code: Text::from_string(String::new(alloc)),
                },
            )),
            Err(ValueFault::NoMemory) => Err(NoMemory),
        },
    }
}

/// A node that makes no attempt.
fn untried(alloc: Global, verdict: Verdict) -> Judged
    ensures verdict { result.verdict ≡ verdict }
    ensures attempts { result.attempts ≡ [] }
{
    Judged {
        verdict,
        attempts: List::from_vec(Vec::new(alloc)),
    }
}

/// A node that is entered with these inputs, each attempt of which has them.
fn tried(
    alloc: Global,
    plan: &Plan,
    records: &Records<'_>,
    number: u32,
    given: &LiteralMap,
) -> Result<Judged, NoMemory>
    requires number { number < length plan.now.nodes }
    requires recorded { AreRecords plan.now records.now.results.now records.now.hits.now records.now }
    ensures { (p : PlanNode) → node_numbered plan.now number ≡ Some p
        → IfOk result (λ j. j ≡ (let made = evaluation.task_attempts plan.now records.now.results.now records.now.hits.now p in
        record { verdict = made.verdict; attempts = replicate made.count given.now })) }
{
    let made = task_attempts(alloc, plan, records, number)?;
    Ok(Judged {
        attempts: copies(alloc, given, made.count)?,
        verdict: made.verdict,
    })
}

/// So many copies of the inputs.
fn copies(alloc: Global, given: &LiteralMap, count: usize) -> Result<List<LiteralMap>, NoMemory>
    ensures { IfOk result (λ list. list ≡ replicate count given.now) }
{
    let mut list = Vec::new(alloc);
    for _ in 0..count {
        list.push(given.copy(alloc)?)?;
    }
    Ok(List::from_vec(list))
}
