//! What the store answers to an operation, and what that changes.
ghost use Rattle.std.specs.Prelude.{◌≡◌, IfOk};
ghost use Rattle.fly_world.specs.declared.answers.Change.TheVariants as changes;
ghost use Rattle.fly_world.specs.Answers.{answer_in, CanMakeAnswer};
ghost use Rattle.fly_world.specs.Steps as steps;
ghost use Rattle.fly_world.specs.Steps.{step};
ghost use Rattle.fly_world.specs.Store.{IsSound};

use crate::attempts::{on_claim, on_expire, on_finish, on_launch};
use crate::cache::{on_lookup, on_put, on_reserve};
use crate::spots::Spot;
use crate::store::Store;
use crate::submissions::{on_import, on_submit};
use crate::ticks::{on_sweep, on_tick};
use crate::views::on_read;
use crate::writes::on_write;
use fly_docs::{AttemptName, DatasetId, Submission};
use fly_policy::Outcome;
use fly_state::{ExecState, Op, Reply};
use fly_types::{LiteralMap, NoMemory, Text};

/// What a reply changes in the store, beside the entries.
#[derive(Debug, Drop)]
pub enum Change {
    Nothing,
    Moment(i64),
    /// The reservations of owners that have ended are let go.
    Sweep,
    /// An artifact under a tag.
    Stores {
        dataset: DatasetId,
        tag: Text,
        content: LiteralMap,
    },
    /// The reservation of a tag for the node, by the answer that the catalog gives it.
    Reserves {
        spot: Spot,
        dataset: DatasetId,
        tag: Text,
        owner: Text,
    },
    /// An execution in its version 0.
    Execution {
        submission: Submission,
        state: ExecState,
    },
    Launch {
        name: AttemptName,
        inputs: LiteralMap,
    },
    /// The first launch that nobody has claimed is handed out.
    Claim,
    /// What the attempt came to that was launched under this number.
    Outcome {
        number: usize,
        outcome: Outcome,
    },
    /// The next version of the execution of this number.
    Version {
        number: usize,
        state: ExecState,
    },
}

/// A reply with its change.
#[derive(Debug, Drop)]
pub struct Answer {
    pub reply: Reply,
    pub change: Change,
}

/// The reply changes nothing.
pub(crate) fn says(reply: Reply) -> Answer
    ensures { result ≡ record { reply = reply; change = changes.Nothing } }
{
    Answer {
        reply,
        change: Change::Nothing,
    }
}

/// What an operation of a worker answers and changes. None where its entry is illegal.
#[tactic(auto, unfolding(crate::specs::Steps::step))]
pub(crate) fn answer_to(store: &Store, worker: u32, op: &Op) -> Result<Option<Answer>, NoMemory>
    requires { IsSound store.now }
    ensures answer { IfOk result (λ a. answer_in store.now a ≡ step store.now.plan store.now.world worker op.now) }
    ensures change { IfOk result (CanMakeAnswer store.now) }
{
    match op {
        Op::Begin { .. } => Ok(on_begin(store, worker)),
        Op::Import {
            dataset,
            tag,
            content,
        } => on_import(store, dataset, tag, content),
        Op::Submit { exec, inputs } => on_submit(store, exec, inputs),
        Op::Tick { now } => Ok(Some(on_tick(store, *now))),
        Op::Sweep => Ok(Some(on_sweep(store))),
        Op::Read { from, back } => on_read(store, *from, *back),
        Op::Lookup { exec, path } => on_lookup(store, exec, path),
        Op::Reserve { exec, path } => on_reserve(store, exec, path),
        Op::Launch { name, inputs } => on_launch(store, name, inputs),
        Op::Expire { name } => on_expire(store, name),
        Op::Put { exec, path } => on_put(store, exec, path),
        Op::Write { exec, base, moves } => on_write(store, exec, *base, moves),
        Op::Claim => on_claim(store),
        Op::Finish { name, outcome } => on_finish(store, name, outcome),
    }
}

/// Entry 0 alone, by worker 0.
fn on_begin(store: &Store, worker: u32) -> Option<Answer>
    ensures answer { answer_in store.now result ≡ steps.on_begin store.now.world worker }
    ensures change { CanMakeAnswer store.now result }
{
    if worker == 0 && store.len() == 0 {
        Some(says(Reply::Begun))
    } else {
        None
    }
}
