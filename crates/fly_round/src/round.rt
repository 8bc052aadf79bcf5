//! A round: it asks, is told, and ends with its moves.
ghost use Rattle.std.specs.Prelude.{◌≡◌, ◌<◌, ◌&&◌, ◌||◌, ◌∷◌, ◌++◌, [], ℕ, vec_len, vec_capacity, Some, None, IfOk, MatchResult};
ghost use Rattle.fly_state.specs.declared.entries.Op as ops;
ghost use Rattle.fly_state.specs.OfPlan.{IsViewOfPlan};
ghost use Rattle.fly_round.specs.Questions as asked;
ghost use Rattle.fly_round.specs.Questions.{AsksWhere};
ghost use Rattle.fly_round.specs.Moves as words;
ghost use Rattle.fly_round.specs.Rounds.{first_round, with_answer, is_look_up, is_miss_reply};

use crate::Told;
use crate::attempts::attempts_of;
use crate::finding::{Asked, next_twice, start_of};
use crate::moves::round_moves;
use crate::progress::Progress;
use fly_state::{Move, Op, Plan, Reply, View, is_run_broken};
use fly_types::{List, NoMemory};
use std::alloc::Global;
use std::marker::Model;

/// One reconciliation of an execution. It is made from a view, asks the world its questions one at a time, is told the
/// answers, and ends with the moves that are legal by these. Contracts see what was told and the question that waits.
#[derive(Drop)]
pub struct Round<'p> {
    alloc: Global,
    plan: &'p Plan,
    view: View,
    broken: bool,
    /// For each node the place of its present attempt among the launches.
    attempts: Vec<Option<usize>>,
    told: Vec<Told>,
    waiting: Option<Op>,
    at: Progress,
}

impl<'p> Model for Round<'p> {
    ghost use Rattle.std.specs.Coded.{codes};
    ghost use Rattle.fly_types.specs.contracts.kinds.LiteralType as types;
    ghost use Rattle.fly_types.specs.contracts.literals.Literal as literals;
    ghost use Rattle.fly_types.specs.contracts.literals.Tree as trees;
    ghost use Rattle.fly_exprs.specs.contracts.expr.Expr as exprs;
    ghost use Rattle.fly_docs.specs.contracts.binding.Bound as bounds;
    ghost use Rattle.fly_docs.specs.contracts.node.Node as steps;
    ghost use Rattle.std.specs.Prelude.{◌≡◌, ◌<◌, Some, vec_len, vec_capacity};
    ghost use Rattle.fly_state.specs.declared.entries.Op.{Op};
    ghost use Rattle.fly_round.specs.Rounds.{RoundState, IsRound};

    ghost Value = { RoundState };

    ghost coded = { Prim.hlevel (codes, types.the_row.coded, literals.the_row.coded, trees.the_row.coded, exprs.the_row.coded, bounds.the_row.coded, steps.the_row.coded) };

    ghost view = { λ r. record { plan = r.plan.now; view = r.view; told = r.told.items; waiting = r.waiting } };

    ghost invariant = { λ r. IsRound r.plan.now r.view r.broken r.attempts.items r.told.items r.waiting r.at
        × ((o : Op) → r.waiting ≡ Some o → vec_len r.told < vec_capacity r.told) };
}

impl<'p> Round<'p> {
    /// The round over a view of the plan. Goes once over the nodes and over the launches of the view.
    pub fn make(alloc: Global, p: &'p Plan, view: View) -> Result<Round<'p>, NoMemory>
        requires { IsViewOfPlan p.now view }
        ensures { IfOk result (λ r. r ≡ first_round p.now view) }
    {
        p.primary();
        let attempts = attempts_of(alloc, p, &view)?;
        let broken = is_run_broken(p, &view.state);
        Ok(Round {
            alloc,
            plan: p,
            view,
            broken,
            attempts,
            told: Vec::new(alloc),
            waiting: None,
            at: start_of(0),
        })
    }

    /// The next question, in plan order; none where all were asked. Makes the room for its answer.
    pub fn ask(&mut self) -> Result<Option<Op>, NoMemory>
        requires { self.old.waiting ≡ None }
        ensures question { IfOk result (AsksWhere self.old.view.name (asked.next_question self.old.plan self.old.view self.old.told)) }
        ensures state { MatchResult result (λ question. self.new ≡ record self.old { waiting = question }) (λ _. self.new ≡ self.old) }
    {
        self.plan.primary();
        if self.broken {
            return Ok(None);
        }
        self.told.reserve(1)?;
        match next_twice(self.alloc, self.plan, &self.view, &self.attempts, self.at)? {
            Some(asked) => {
                let Asked { op, kept, at } = asked;
                wait_for(&mut self.waiting, kept);
                self.at = at;
                Ok(Some(op))
            }
            None => Ok(None),
        }
    }

    /// The answer to the question that waits: an entry of the journal with its place.
    pub fn tell(&mut self, place: u64, reply: Reply)
        requires { (o : ops.Op) × (self.old.waiting ≡ Some o) }
        ensures { (o : ops.Op) → self.old.waiting ≡ Some o → self.new ≡ with_answer self.old o place reply }
    {
        self.plan.primary();
        let Some(op) = self.waiting.take() else {
            return;
        };
        self.at.missed = is_missed(self.at.missed, &op, &reply);
        let answer = Told { place, op, reply };
        keep(&mut self.told, answer);
    }

    /// All moves that are legal at the view by what was told, in plan order with the root last.
    pub fn finish(self) -> Result<List<Move>, NoMemory>
        requires { self.waiting ≡ None }
        ensures { IfOk result (λ moves. moves ≡ words.round_moves self.entry.plan self.entry.view self.entry.told) }
    {
        round_moves(
            self.alloc,
            self.plan,
            &self.view,
            self.broken,
            &self.attempts,
            &self.told,
        )
    }
}

/// Whether the catalog was found to lack outputs, before or by this answer.
fn is_missed(missed: bool, op: &Op, reply: &Reply) -> bool
    ensures { result ≡ (missed || (is_look_up op.now && is_miss_reply reply.now)) }
{
    missed || is_miss(op, reply)
}

/// Whether the catalog was found to lack outputs.
fn is_miss(op: &Op, reply: &Reply) -> bool
    ensures { result ≡ is_look_up op.now && is_miss_reply reply.now }
{
    match op {
        Op::Lookup { .. } => matches!(reply, Reply::Miss),
        _ => false,
    }
}

/// The operation waits for its answer.
fn wait_for(waiting: &mut Option<Op>, op: Op)
    ensures { waiting.new ≡ Some op }
{
    *waiting = Some(op);
}

/// Keeps an answer, for which there is room.
fn keep(told: &mut Vec<Told>, answer: Told)
    requires { vec_len told.old < vec_capacity told.old }
    ensures { told.new.items ≡ told.old.items ++ answer ∷ [] }
{
    let _ = told.push(answer);
}
