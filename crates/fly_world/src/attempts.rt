//! Launches, claims and outcomes of attempts.
ghost use Rattle.std.specs.Prelude.{◌≡◌, Some, true, IfOk, IfSome, IsSome, option_and_then};
ghost use Rattle.fly_attempts.specs.Parts.{Claim, handout_of};
ghost use Rattle.fly_policy.specs.declared.outcome.Outcome.TheVariants as outcomes;
ghost use Rattle.fly_state.specs.OfPlan.{item_output_variables};
ghost use Rattle.fly_state.specs.declared.entries.Reply.TheVariants as replies;
ghost use Rattle.fly_world.specs.Answers.{answer_in, CanMakeAnswer};
ghost use Rattle.fly_world.specs.Attempts.{Stands};
ghost use Rattle.fly_world.specs.declared.answers.Change.TheVariants as changes;
ghost use Rattle.fly_world.specs.Spots as words;
ghost use Rattle.fly_world.specs.Spots.{Spot as Place};
ghost use Rattle.fly_world.specs.Steps as steps;
ghost use Rattle.fly_world.specs.Store.{spot_at};
ghost use Rattle.fly_world.specs.Store.{IsSound};

use crate::answers::{Answer, Change, says};
use crate::spots::{Spot, are_ids, attempt_spot, gives_all, runs, timeout_of};
use crate::store::Store;
use fly_attempts::Handout;
use fly_docs::AttemptName;
use fly_policy::{Outcome, expired};
use fly_state::{At, InputFault, Reply, inputs_of};
use fly_types::{LiteralMap, NoMemory};

/// An attempt is launched with its inputs, once.
pub(crate) fn on_launch(
    store: &Store,
    name: &AttemptName,
    inputs: &LiteralMap,
) -> Result<Option<Answer>, NoMemory>
    requires { IsSound store.now }
    ensures answer { IfOk result (λ a. answer_in store.now a ≡ steps.on_launch store.now.plan store.now.world name.now inputs.now) }
    ensures change { IfOk result (CanMakeAnswer store.now) }
{
    if !are_ids(&name.exec, &name.path) {
        return Ok(None);
    }
    let Some(spot) = attempt_spot(store, name) else {
        return Ok(Some(says(Reply::Unknown)));
    };
    Ok(Some(launched(store, spot, name, inputs)?))
}

fn launched(
    store: &Store,
    spot: Spot,
    name: &AttemptName,
    inputs: &LiteralMap,
) -> Result<Answer, NoMemory>
    requires sound { IsSound store.now }
    requires there { IsSome (spot_at store.now.plan store.now.world spot) }
    ensures answer { (place : Place) → spot_at store.now.plan store.now.world spot ≡ Some place
        → IfOk result (λ a. answer_in store.now (Some a) ≡ Some (steps.launched store.now.plan store.now.world name.now inputs.now place)) }
    ensures change { IfOk result (λ a. CanMakeAnswer store.now (Some a)) }
{
    let alloc = store.alloc();
    if store.attempts().number_of(alloc, name)?.is_some() {
        return Ok(says(Reply::Already));
    }
    if !runs(store, spot, name) {
        return Ok(says(Reply::NotRunning));
    }
    if !has_inputs(store, spot, name, inputs)? {
        return Ok(says(Reply::BadInputs));
    }
    Ok(Answer {
        reply: Reply::Launched,
        change: Change::Launch {
            name: name.copy(alloc)?,
            inputs: inputs.copy(alloc)?,
        },
    })
}

/// Whether these are the inputs of a slot that runs.
fn has_inputs(
    store: &Store,
    spot: Spot,
    name: &AttemptName,
    inputs: &LiteralMap,
) -> Result<bool, NoMemory>
    requires sound { IsSound store.now }
    requires there { IsSome (spot_at store.now.plan store.now.world spot) }
    requires runs { (place : Place) → spot_at store.now.plan store.now.world spot ≡ Some place
        → words.runs place name.now ≡ true }
    ensures { (place : Place) → spot_at store.now.plan store.now.world spot ≡ Some place
        → IfOk result (λ has. has ≡ words.has_inputs store.now.plan place name.now inputs.now) }
{
    let Some(versions) = store.execution(spot.execution) else {
        return Ok(false);
    };
    let at = At {
        node: Some(spot.node),
        item: name.item,
    };
    match inputs_of(store.alloc(), store.plan(), versions.current(), &at) {
        Ok(wanted) => Ok(wanted.is_same(inputs)),
        Err(InputFault::NoMemory) => Err(NoMemory),
        Err(_) => Ok(false),
    }
}

/// The first launched attempt that nobody has claimed is handed out.
pub(crate) fn on_claim(store: &Store) -> Result<Option<Answer>, NoMemory>
    ensures answer { IfOk result (λ a. answer_in store.now a ≡ steps.on_claim store.now.world) }
    ensures change { IfOk result (CanMakeAnswer store.now) }
{
    match store.attempts().unclaimed() {
        Some(launch) => Ok(Some(Answer {
            reply: Reply::Claimed(launch.name.copy(store.alloc())?),
            change: Change::Claim,
        })),
        None => Ok(Some(says(Reply::Nothing))),
    }
}

/// An attempt times out whose time is over.
pub(crate) fn on_expire(store: &Store, name: &AttemptName) -> Result<Option<Answer>, NoMemory>
    requires { IsSound store.now }
    ensures answer { IfOk result (λ a. answer_in store.now a ≡ steps.on_expire store.now.plan store.now.world name.now) }
    ensures change { IfOk result (CanMakeAnswer store.now) }
{
    if !are_ids(&name.exec, &name.path) {
        return Ok(None);
    }
    let Some(spot) = attempt_spot(store, name) else {
        return Ok(Some(says(Reply::Unknown)));
    };
    match standing_of(store, spot, name)? {
        Standing::NotClaimed => Ok(Some(says(Reply::NotClaimed))),
        Standing::Settled => Ok(Some(says(Reply::AlreadySettled))),
        Standing::Going(_) => Ok(Some(says(Reply::NotDue))),
        Standing::Overdue(number) => Ok(Some(timed_out(number))),
    }
}

/// What an attempt came to.
pub(crate) fn on_finish(
    store: &Store,
    name: &AttemptName,
    outcome: &Outcome,
) -> Result<Option<Answer>, NoMemory>
    requires { IsSound store.now }
    ensures answer { IfOk result (λ a. answer_in store.now a ≡ steps.on_finish store.now.plan store.now.world name.now outcome.now) }
    ensures change { IfOk result (CanMakeAnswer store.now) }
{
    let spot = attempt_spot(store, name);
    if !is_outcome_at(store, outcome, spot) || !are_ids(&name.exec, &name.path) {
        return Ok(None);
    }
    let Some(spot) = spot else {
        return Ok(Some(says(Reply::Unknown)));
    };
    match standing_of(store, spot, name)? {
        Standing::NotClaimed => Ok(Some(says(Reply::NotClaimed))),
        Standing::Settled => Ok(Some(says(Reply::AlreadySettled))),
        Standing::Overdue(number) => Ok(Some(timed_out(number))),
        Standing::Going(number) => Ok(Some(Answer {
            reply: Reply::Recorded,
            change: Change::Outcome {
                number,
                outcome: outcome.copy(store.alloc())?,
            },
        })),
    }
}

/// Whether the outcome is no timeout, and its outputs are those of the task that the node runs.
fn is_outcome_at(store: &Store, outcome: &Outcome, spot: Option<Spot>) -> bool
    requires { IfSome spot (λ s. IsSome (spot_at store.now.plan store.now.world s)) }
    ensures { result ≡ steps.is_outcome_at store.now.plan outcome.now (option_and_then (spot_at store.now.plan store.now.world) spot) }
{
    match outcome {
        Outcome::TimedOut => false,
        Outcome::Succeeded(outputs) => match spot {
            Some(spot) => are_outputs_at(store, spot, outputs),
            None => true,
        },
        _ => true,
    }
}

/// Whether these are outputs of the task that the node runs.
fn are_outputs_at(store: &Store, spot: Spot, outputs: &LiteralMap) -> bool
    ensures { (place : Place) → spot_at store.now.plan store.now.world spot ≡ Some place
        → result ≡ words.gives_all (item_output_variables store.now.plan place.node) outputs.now }
{
    let plan = store.plan();
    plan.primary();
    match plan.task(spot.node) {
        Some(task) => gives_all(&task.interface.outputs, outputs),
        None => outputs.entries.is_empty(),
    }
}

/// How an attempt stands that is of the plan and the submissions, with its number where it goes on.
pub(crate) enum Standing {
    NotClaimed,
    Settled,
    Overdue(usize),
    Going(usize),
}

fn standing_of(store: &Store, spot: Spot, name: &AttemptName) -> Result<Standing, NoMemory>
    requires { IsSound store.now }
    ensures { (place : Place) → spot_at store.now.plan store.now.world spot ≡ Some place
        → IfOk result (Stands store.now place name.now) }
{
    let attempts = store.attempts();
    let Some(number) = attempts.number_of(store.alloc(), name)? else {
        return Ok(Standing::NotClaimed);
    };
    let Some(handout) = attempts.claim_of(number) else {
        return Ok(Standing::NotClaimed);
    };
    if attempts.outcome_of(number).is_some() {
        return Ok(Standing::Settled);
    }
    if is_overdue(store, spot, handout) {
        Ok(Standing::Overdue(number))
    } else {
        Ok(Standing::Going(number))
    }
}

/// Whether the time of what was handed out is over.
fn is_overdue(store: &Store, spot: Spot, handout: &Handout) -> bool
    ensures { (place : Place) (claim : Claim) → spot_at store.now.plan store.now.world spot ≡ Some place
        → handout_of claim ≡ handout.now → result ≡ steps.is_overdue store.now.plan store.now.world place claim }
{
    spot.node < store.plan().len()
        && expired(
            handout.moment,
            timeout_of(store.plan(), spot.node),
            store.moment(),
        )
}

fn timed_out(number: usize) -> Answer
    ensures { result ≡ record { reply = replies.Expired; change = changes.Outcome number outcomes.TimedOut } }
{
    Answer {
        reply: Reply::Expired,
        change: Change::Outcome {
            number,
            outcome: Outcome::TimedOut,
        },
    }
}
