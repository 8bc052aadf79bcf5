//! The step of a node.
ghost use Rattle.std.specs.Prelude.{◌≡◌, ◌<◌, List as Listed, [], length, map, is_some, option_to_list, slice_get, Option, Some, None};
ghost use Rattle.fly_docs.specs.Plans.{PlanNode};
ghost use Rattle.fly_docs.specs.declared.task.Task as tasks;
ghost use Rattle.fly_state.specs.OfPlan.{IsViewOfPlan};
ghost use Rattle.fly_state.specs.Plans.{RunPlan, node_numbered, task_of};
ghost use Rattle.fly_state.specs.States.{own_state, is_broken};
ghost use Rattle.fly_state.specs.Moves.{node_effect, outcome_in, where_true};
ghost use Rattle.fly_state.specs.declared.moves.Step.TheVariants as steps;
ghost use Rattle.fly_round.specs.declared.told.Told as replies;
ghost use Rattle.fly_round.specs.Answers.{HasAnswers};
ghost use Rattle.fly_round.specs.Attempts.{HasAttempts};
ghost use Rattle.fly_round.specs.Moves.{node_moves};
ghost use Rattle.fly_round.specs.Steps as words;

use crate::answers::{CatalogAnswer, NodeAnswers, answers_at};
use crate::attempts::known_at;
use fly_state::{Phase, Plan, Step, View, is_step, phase_at};

/// The one step that a node may make, where it may make one.
pub(crate) fn node_step(
    plan: &Plan,
    v: &View,
    broken: bool,
    attempts: &[Option<usize>],
    answers: &[NodeAnswers],
    number: u32,
) -> Option<Step>
    requires of_plan { IsViewOfPlan plan.now v.now }
    requires broken_is { broken ≡ is_broken plan.now v.now.state [] }
    requires known { HasAttempts plan.now v.now attempts.now }
    requires number { number < length plan.now.nodes }
    ensures { (told : Listed replies.Told) (p : PlanNode) → HasAnswers plan.now v.now told answers.now
        → node_numbered plan.now number ≡ Some p
        → node_moves plan.now v.now told (number, p) ≡ map (words.move_at (Some number)) (option_to_list result) }
{
    let _primary = plan.primary();
    let phase = phase_at(&v.state, number);
    if broken {
        return abort_step(phase);
    }
    match phase {
        Phase::NotYetStarted => first_step(plan, v, number),
        Phase::Queued => queued_step(plan, number, answers_at(answers, number)),
        Phase::Running => settle_step(v, attempts, number),
        Phase::RetryableFailure => Some(Step::Retry),
        Phase::Succeeding => stored_step(answers_at(answers, number)),
        Phase::Succeeded => None,
        Phase::Failed => None,
        Phase::TimedOut => None,
        Phase::Skipped => None,
        Phase::Aborted => None,
    }
}

/// In a broken run what isn't final is aborted.
fn abort_step(phase: Phase) -> Option<Step>
    ensures { result ≡ words.abort_step phase }
{
    if phase.is_final() {
        None
    } else {
        Some(Step::Abort)
    }
}

/// The step of a node that isn't started.
fn first_step(plan: &Plan, v: &View, number: u32) -> Option<Step>
    requires of_plan { IsViewOfPlan plan.now v.now }
    requires number { number < length plan.now.nodes }
    ensures { (n : PlanNode) → node_numbered plan.now number ≡ Some n
        → result ≡ words.first_step (is_some (node_effect plan.now v.now [] number n steps.Queue))
        (is_some (node_effect plan.now v.now [] number n steps.InputFail))
        (is_some (node_effect plan.now v.now [] number n steps.Skip)) }
{
    if is_step(plan, v, &[], number, Step::Queue) {
        return Some(Step::Queue);
    }
    if is_step(plan, v, &[], number, Step::InputFail) {
        return Some(Step::InputFail);
    }
    if is_step(plan, v, &[], number, Step::Skip) {
        return Some(Step::Skip);
    }
    None
}

/// The step of a node that is queued, by what was told of it.
fn queued_step(plan: &Plan, number: u32, own: NodeAnswers) -> Option<Step>
    ensures { (n : PlanNode) (t : tasks.Task) → node_numbered plan.now number ≡ Some n → task_of plan.now n ≡ Some t
        → result ≡ words.queued_step t.cached t.serializable own }
{
    match plan.task(number) {
        Some(task) => run_step(task.cached, task.serializable, own),
        None => None,
    }
}

fn run_step(cached: bool, serializable: bool, own: NodeAnswers) -> Option<Step>
    ensures { result ≡ words.queued_step cached serializable own }
{
    if !cached {
        return Some(Step::Run {
            miss: None,
            lease: None,
        });
    }
    match own {
        NodeAnswers::One(CatalogAnswer::Hit(place)) => Some(Step::Hit(place)),
        NodeAnswers::One(CatalogAnswer::Missed(place)) if !serializable => Some(Step::Run {
            miss: Some(place),
            lease: None,
        }),
        NodeAnswers::Two(CatalogAnswer::Missed(miss), CatalogAnswer::Granted(lease))
            if serializable => Some(Step::Run {
            miss: Some(miss),
            lease: Some(lease),
        }),
        _ => None,
    }
}

/// The step of a node that runs: its attempt is settled once it has an outcome.
fn settle_step(v: &View, attempts: &[Option<usize>], number: u32) -> Option<Step>
    ensures { (plan : RunPlan) (p : PlanNode) → node_numbered plan number ≡ Some p → HasAttempts plan v.now attempts.now
        → result ≡ where_true (is_some (outcome_in v.now p None (own_state v.now.state number).attempt)) (Some steps.Settle) }
{
    if has_outcome(v, attempts, number) {
        Some(Step::Settle)
    } else {
        None
    }
}

/// Whether the present attempt of a node has an outcome.
fn has_outcome(v: &View, attempts: &[Option<usize>], number: u32) -> bool
    ensures { (plan : RunPlan) (p : PlanNode) → node_numbered plan number ≡ Some p → HasAttempts plan v.now attempts.now
        → result ≡ is_some (outcome_in v.now p None (own_state v.now.state number).attempt) }
{
    match known_at(v, attempts, number) {
        Some(known) => known.outcome.is_some(),
        None => false,
    }
}

/// The step of a node whose outputs were put into the catalog.
fn stored_step(own: NodeAnswers) -> Option<Step>
    ensures { result ≡ words.stored_step own }
{
    match own {
        NodeAnswers::One(CatalogAnswer::Stored(place)) => Some(Step::Stored(place)),
        _ => None,
    }
}
