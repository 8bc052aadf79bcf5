//! The opening of a run: imports, and what is submitted.
ghost use Rattle.std.specs.Prelude.{◌≡◌, IfOk};
ghost use Rattle.fly_state.specs.States as states;
ghost use Rattle.fly_world.specs.Answers.{answer_in, CanMakeAnswer};
ghost use Rattle.fly_world.specs.Steps as steps;

use crate::answers::{Answer, Change, says};
use crate::spots::{gives_all, is_id_text};
use crate::store::Store;
use fly_docs::{DatasetId, Submission};
use fly_state::{ExecState, NodeState, Phase, Plan, Reply, SlotState};
use fly_types::{List, LiteralMap, NoMemory, Text};
use std::alloc::Global;

/// How many executions there may be.
pub(crate) const MAX_EXECUTIONS: usize = u32::MAX as usize;

/// An artifact that the catalog already has.
pub(crate) fn on_import(
    store: &Store,
    dataset: &DatasetId,
    tag: &Text,
    content: &LiteralMap,
) -> Result<Option<Answer>, NoMemory>
    ensures answer { IfOk result (λ a. answer_in store.now a ≡ steps.on_import store.now.world dataset.now tag.now content.now) }
    ensures change { IfOk result (CanMakeAnswer store.now) }
{
    if !store.is_opening() || store.catalog().has_tag(dataset, tag) {
        return Ok(None);
    }
    let alloc = store.alloc();
    Ok(Some(Answer {
        reply: Reply::Imported,
        change: Change::Stores {
            dataset: dataset.copy(alloc)?,
            tag: tag.copy(alloc)?,
            content: content.copy(alloc)?,
        },
    }))
}

/// An execution is asked for.
pub(crate) fn on_submit(
    store: &Store,
    exec: &Text,
    inputs: &LiteralMap,
) -> Result<Option<Answer>, NoMemory>
    ensures answer { IfOk result (λ a. answer_in store.now a ≡ steps.on_submit store.now.plan store.now.world exec.now inputs.now) }
    ensures change { IfOk result (CanMakeAnswer store.now) }
{
    let primary = store.plan().primary();
    if !is_id_text(exec) || !gives_all(&primary.interface.inputs, inputs) {
        return Ok(None);
    }
    if store.number_of(exec).is_some() {
        return Ok(Some(says(Reply::Taken)));
    }
    if store.execution_count() >= MAX_EXECUTIONS {
        return Ok(None);
    }
    let alloc = store.alloc();
    let submission = Submission {
        name: exec.copy(alloc)?,
        inputs: inputs.copy(alloc)?,
    };
    Ok(Some(Answer {
        reply: Reply::Submitted,
        change: Change::Execution {
            submission,
            state: first_state(alloc, store.plan(), inputs)?,
        },
    }))
}

/// Version 0: the root runs with what was submitted, and nothing has happened elsewhere.
fn first_state(alloc: Global, plan: &Plan, inputs: &LiteralMap) -> Result<ExecState, NoMemory>
    ensures { IfOk result (λ state. state ≡ states.first_state plan.now inputs.now) }
{
    let count = plan.len();
    let mut nodes = Vec::with_capacity(alloc, count as usize)?;
    for _ in 0..count {
        nodes.push(fresh_node(alloc))?;
    }
    let mut root = fresh_slot();
    root.phase = Phase::Running;
    root.inputs = Some(inputs.copy(alloc)?);
    Ok(ExecState {
        root,
        nodes: List::from_vec(nodes),
    })
}

/// A slot in which nothing has happened.
fn fresh_slot() -> SlotState
    ensures { result ≡ states.fresh_slot }
{
    SlotState {
        phase: Phase::NotYetStarted,
        attempt: 0,
        choice: None,
        inputs: None,
        outputs: None,
        code: None,
    }
}

fn fresh_node(alloc: Global) -> NodeState
    ensures { result ≡ states.fresh_node }
{
    NodeState {
        own: fresh_slot(),
        items: List::from_vec(Vec::new(alloc)),
    }
}
