//! The moves of a round.
ghost use Rattle.std.specs.Prelude.{◌≡◌, ◌++◌, [], map, option_to_list, Some, None, IfOk};
ghost use Rattle.fly_state.specs.OfPlan.{IsViewOfPlan};
ghost use Rattle.fly_state.specs.States.{is_broken};
ghost use Rattle.fly_round.specs.Attempts.{HasAttempts};
ghost use Rattle.fly_round.specs.Moves as words;
ghost use Rattle.fly_round.specs.Steps.{move_at};

use crate::Told;
use crate::answers::answers_of;
use crate::steps::node_step;
use fly_state::{At, Move, Phase, Plan, Step, View, can_run_close};
use fly_types::{List, NoMemory};
use std::alloc::Global;

/// The legal moves in plan order, the root's last. One pass over what was told, and one over the nodes.
pub(crate) fn round_moves(
    alloc: Global,
    plan: &Plan,
    v: &View,
    broken: bool,
    attempts: &[Option<usize>],
    told: &[Told],
) -> Result<List<Move>, NoMemory>
    requires of_plan { IsViewOfPlan plan.now v.now }
    requires broken_is { broken ≡ is_broken plan.now v.now.state [] }
    requires known { HasAttempts plan.now v.now attempts.now }
    ensures { IfOk result (λ moves. moves ≡ words.round_moves plan.now v.now told.now) }
{
    let _primary = plan.primary();
    let answers = answers_of(alloc, plan, v, told)?;
    let mut moves = Vec::new(alloc);
    for number in 0..plan.len() {
        let step = node_step(plan, v, broken, attempts, &answers, number);
        add(&mut moves, Some(number), step)?;
    }
    add(&mut moves, None, root_step(plan, v))?;
    Ok(List::from_vec(moves))
}

/// Adds the step, where there is one, as a move of the node, or of the root.
fn add(moves: &mut Vec<Move>, node: Option<u32>, step: Option<Step>) -> Result<(), NoMemory>
    ensures { IfOk result (λ _. moves.new.items ≡ moves.old.items ++ map (move_at node) (option_to_list step)) }
{
    if let Some(step) = step {
        moves.push(Move {
            at: At { node, item: None },
            step,
        })?;
    }
    Ok(())
}

/// The step of the root, which does nothing but close.
fn root_step(plan: &Plan, v: &View) -> Option<Step>
    requires { IsViewOfPlan plan.now v.now }
    ensures { words.root_moves plan.now v.now ≡ map (move_at None) (option_to_list result) }
{
    let runs = matches!(v.state.root.phase, Phase::Running);
    if runs && can_run_close(plan, v) {
        Some(Step::Close)
    } else {
        None
    }
}
