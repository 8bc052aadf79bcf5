//! What was told, by node.
ghost use Rattle.std.specs.Prelude.{◌≡◌, ◌<◌, ℕ, IfSome, length, slice_get, slice_set, Some, None, IfOk};
ghost use Rattle.fly_docs.specs.Plans.{PlanNode};
ghost use Rattle.fly_state.specs.Moves.{is_on};
ghost use Rattle.fly_state.specs.Plans.{node_numbered};
ghost use Rattle.fly_round.specs.declared.answers.NodeAnswers as own;
ghost use Rattle.fly_round.specs.Attempts.{is_number};
ghost use Rattle.fly_round.specs.Moves.{is_about};
ghost use Rattle.fly_round.specs.Answers as words;
ghost use Rattle.fly_round.specs.Answers.{HasAnswers};

use crate::Told;
use fly_state::{Op, Plan, Reply, View};
use fly_types::{List, NoMemory, Text};
use std::alloc::Global;

/// What an answer on a node's outputs comes to, with its place.
#[derive(Clone, Copy)]
pub(crate) enum CatalogAnswer {
    Missed(u64),
    Hit(u64),
    Granted(u64),
    Stored(u64),
    Other,
}

/// What was told of a node.
#[derive(Clone, Copy)]
pub(crate) enum NodeAnswers {
    Nothing,
    One(CatalogAnswer),
    Two(CatalogAnswer, CatalogAnswer),
    More,
}

/// For each node what was told of it. One pass over what was told.
pub(crate) fn answers_of(
    alloc: Global,
    plan: &Plan,
    v: &View,
    told: &[Told],
) -> Result<Vec<NodeAnswers>, NoMemory>
    ensures { IfOk result (λ answers. HasAnswers plan.now v.now told.now answers.items) }
{
    let _primary = plan.primary();
    let mut answers = vec![in alloc; NodeAnswers::Nothing; plan.len() as usize]?;
    for one in told {
        if let Some(number) = node_of(plan, v, &one.op) {
            add(&mut answers, number, answer_to(one));
        }
    }
    Ok(answers)
}

/// Adds an answer to those of a node.
fn add(answers: &mut Vec<NodeAnswers>, number: u32, answer: CatalogAnswer)
    requires { number < length answers.old.items }
    ensures added { (before : own.NodeAnswers) → slice_get answers.old.items number ≡ Some before
        → answers.new.items ≡ slice_set answers.old.items number (words.answers_with before answer) }
    ensures len { length answers.new.items ≡ length answers.old.items }
{
    let number = number as usize;
    answers[number] = answers_with(answers[number], answer);
}

/// One answer more.
fn answers_with(before: NodeAnswers, answer: CatalogAnswer) -> NodeAnswers
    ensures { result ≡ words.answers_with before answer }
{
    match before {
        NodeAnswers::Nothing => NodeAnswers::One(answer),
        NodeAnswers::One(first) => NodeAnswers::Two(first, answer),
        NodeAnswers::Two(_, _) | NodeAnswers::More => NodeAnswers::More,
    }
}

/// The node on whose outputs in the catalog the operation is.
fn node_of(plan: &Plan, v: &View, op: &Op) -> Option<u32>
    ensures about { (i : ℕ) (p : PlanNode) → node_numbered plan.now i ≡ Some p → is_about v.now p op.now ≡ is_number i result }
    ensures within { IfSome result (λ n. n < length plan.now.nodes) }
{
    match op {
        Op::Lookup { exec, path } => node_on(plan, v, exec, path),
        Op::Reserve { exec, path } => node_on(plan, v, exec, path),
        Op::Put { exec, path } => node_on(plan, v, exec, path),
        _ => None,
    }
}

/// The node of the path, where this is the view's execution.
fn node_on(plan: &Plan, v: &View, exec: &Text, path: &List<Text>) -> Option<u32>
    ensures on { (i : ℕ) (p : PlanNode) → node_numbered plan.now i ≡ Some p → is_on v.now p exec.now path.now ≡ is_number i result }
    ensures within { IfSome result (λ n. n < length plan.now.nodes) }
{
    let _primary = plan.primary();
    if v.name != *exec {
        return None;
    }
    plan.node_at(path)
}

/// What the answer comes to.
fn answer_to(told: &Told) -> CatalogAnswer
    ensures { result ≡ words.answer_in told.now.place told.now.reply told.now.op }
{
    match told.op {
        Op::Lookup { .. } => look_up_answer(told.place, &told.reply),
        Op::Reserve { .. } => reserve_answer(told.place, &told.reply),
        Op::Put { .. } => put_answer(told.place, &told.reply),
        _ => CatalogAnswer::Other,
    }
}

fn look_up_answer(place: u64, reply: &Reply) -> CatalogAnswer
    ensures { result ≡ words.look_up_answer place reply.now }
{
    match reply {
        Reply::Miss => CatalogAnswer::Missed(place),
        Reply::Hit(_) => CatalogAnswer::Hit(place),
        _ => CatalogAnswer::Other,
    }
}

fn reserve_answer(place: u64, reply: &Reply) -> CatalogAnswer
    ensures { result ≡ words.reserve_answer place reply.now }
{
    match reply {
        Reply::Granted(_) => CatalogAnswer::Granted(place),
        _ => CatalogAnswer::Other,
    }
}

fn put_answer(place: u64, reply: &Reply) -> CatalogAnswer
    ensures { result ≡ words.put_answer place reply.now }
{
    match reply {
        Reply::Stored | Reply::Present => CatalogAnswer::Stored(place),
        _ => CatalogAnswer::Other,
    }
}

/// What the table has for a node.
pub(crate) fn answers_at(answers: &[NodeAnswers], number: u32) -> NodeAnswers
    ensures { (there : own.NodeAnswers) → slice_get answers.now number ≡ Some there → result ≡ there }
{
    match answers.get(number as usize) {
        Some(there) => *there,
        None => NodeAnswers::Nothing,
    }
}
