//! One pass along a plan, node by node.
ghost use Rattle.std.specs.Prelude.{◌≡◌, ◌<◌, Some, length, slice_set, IfOk};
ghost use Rattle.fly_docs.specs.Plans.{PlanNode};
ghost use Rattle.fly_state.specs.Plans.{node_numbered};
ghost use Rattle.fly_eval.specs.Judging as words;
ghost use Rattle.fly_eval.specs.Judging.{TellsAll, with_judged};
ghost use Rattle.fly_eval.specs.Records.{AreTypedRecords};
ghost use Rattle.fly_eval.specs.Tables.{AreRecords};
ghost use Rattle.fly_state.specs.States.{fresh_slot};

use crate::judging::{Judged, judge};
use crate::tables::Records;
use crate::{Seen, Verdict};
use fly_state::{ExecState, NodeState, Phase, Plan, SlotState, Standing};
use fly_types::{List, LiteralMap, NoMemory, TryCopy};
use std::alloc::Global;

/// What is told of the nodes so far, each at its number.
#[derive(Drop)]
pub(crate) struct Pass {
    /// A node whose verdict stands in no phase, or is not known yet, is not yet started there.
    pub state: ExecState,
    /// How the nodes stand that are not yet started.
    pub known: List<Standing>,
    pub seen: List<Seen>,
}

/// What each node comes to, those that a node looks at before it.
pub(crate) fn judge_all(
    alloc: Global,
    plan: &Plan,
    inputs: &LiteralMap,
    records: &Records<'_>,
) -> Result<Pass, NoMemory>
    requires recorded { AreRecords plan.now records.now.results.now records.now.hits.now records.now }
    requires typed { AreTypedRecords plan.now inputs.now records.now.results.now records.now.hits.now }
    ensures { IfOk result (TellsAll plan.now inputs.now records.now.results.now records.now.hits.now) }
{
    plan.primary();
    let mut pass = first_pass(alloc, plan, inputs)?;
    for number in plan.order() {
        let judged = judge(
            alloc,
            plan,
            records,
            &pass.state,
            pass.known.as_slice(),
            *number,
        )?;
        pass = note(alloc, plan, pass, *number, judged)?;
    }
    Ok(pass)
}

/// The pass before any node is judged.
fn first_pass(alloc: Global, plan: &Plan, inputs: &LiteralMap) -> Result<Pass, NoMemory>
    ensures { IfOk result (words.IsFirstPass plan.now inputs.now) }
{
    let count = plan.len() as usize;
    let mut root = fresh_slot();
    root.phase = Phase::Running;
    root.inputs = Some(inputs.copy(alloc)?);
    let mut nodes = Vec::with_capacity(alloc, count)?;
    let mut seen = Vec::with_capacity(alloc, count)?;
    for _ in 0..count {
        nodes.push(NodeState {
            own: fresh_slot(),
            items: List::from_vec(Vec::new(alloc)),
        })?;
        seen.push(unseen(alloc))?;
    }
    let known = vec![in alloc; Standing::Blocked; count]?;
    Ok(Pass {
        state: ExecState {
            root,
            nodes: List::from_vec(nodes),
        },
        known: List::from_vec(known),
        seen: List::from_vec(seen),
    })
}

/// A slot in which nothing has happened.
fn fresh_slot() -> SlotState
    ensures { result ≡ fresh_slot }
{
    SlotState {
        phase: Phase::NotYetStarted,
        attempt: 0,
        choice: None,
        inputs: None,
        outputs: None,
        code: None,
    }
}

/// What stands at a node until it is judged.
fn unseen(alloc: Global) -> Seen {
    Seen {
        path: List::from_vec(Vec::new(alloc)),
        item: None,
        verdict: Verdict::Pending,
        attempts: List::from_vec(Vec::new(alloc)),
    }
}

/// The pass with one node judged.
fn note(
    alloc: Global,
    plan: &Plan,
    pass: Pass,
    number: u32,
    judged: Judged,
) -> Result<Pass, NoMemory>
    requires number { number < length plan.now.nodes }
    requires nodes { number < length pass.state.nodes }
    requires known { number < length pass.known }
    requires seen { number < length pass.seen }
    ensures { (p : PlanNode) → node_numbered plan.now number ≡ Some p → IfOk result (λ next. next ≡ with_judged pass number p judged) }
{
    let Pass { state, known, seen } = pass;
    let ExecState { root, nodes } = state;
    let own = slot_of(alloc, &judged.verdict)?;
    let standing = told_standing(&judged.verdict);
    let path = plan.path_of(number).copy(alloc)?;
    let told = Seen {
        path,
        item: None,
        verdict: judged.verdict,
        attempts: judged.attempts,
    };
    let items = List::from_vec(Vec::new(alloc));
    Ok(Pass {
        state: ExecState {
            root,
            nodes: with(nodes, number, NodeState { own, items }),
        },
        known: with(known, number, standing),
        seen: with(seen, number, told),
    })
}

/// The list with this value at a place of it.
fn with<T: Drop>(list: List<T>, place: u32, value: T) -> List<T>
    requires { place < length list }
    ensures { result ≡ slice_set list place value }
{
    let mut list = list.into_vec();
    list[place as usize] = value;
    List::from_vec(list)
}

/// The slot that tells the verdict.
fn slot_of(alloc: Global, verdict: &Verdict) -> Result<SlotState, NoMemory>
    ensures { IfOk result (λ slot. slot ≡ words.slot_of verdict.now) }
{
    let mut slot = fresh_slot();
    match verdict {
        Verdict::Pending | Verdict::Blocked => {}
        Verdict::Skipped => slot.phase = Phase::Skipped,
        Verdict::Failed { .. } => slot.phase = Phase::Failed,
        Verdict::TimedOut => slot.phase = Phase::TimedOut,
        Verdict::Succeeded(outputs) => {
            slot.phase = Phase::Succeeded;
            slot.outputs = Some(outputs.copy(alloc)?);
        }
    }
    Ok(slot)
}

/// How a node of that verdict stands, where its slot does not tell it.
fn told_standing(verdict: &Verdict) -> Standing
    ensures { result ≡ words.told_standing verdict.now }
{
    match verdict {
        Verdict::Pending => Standing::Waiting,
        _ => Standing::Blocked,
    }
}
