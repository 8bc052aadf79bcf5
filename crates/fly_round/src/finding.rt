//! The next question of a round.
ghost use Rattle.std.specs.Prelude.{◌≡◌, true, false, List as Listed, [], length, IfOk};
ghost use Rattle.fly_state.specs.OfPlan.{IsViewOfPlan};
ghost use Rattle.fly_state.specs.States.{is_broken};
ghost use Rattle.fly_round.specs.declared.told.Told as answers;
ghost use Rattle.fly_round.specs.Attempts.{HasAttempts};
ghost use Rattle.fly_round.specs.Questions.{HasPathsOfIds};
ghost use Rattle.fly_round.specs.Rounds.{FindsNext, HasCome};
ghost use Rattle.fly_round.specs.Finding.{FindsTwice};

use crate::progress::Progress;
use crate::questions::{first_question, second_question};
use fly_state::{Op, Plan, View};
use fly_types::NoMemory;
use std::alloc::Global;

/// The question behind those that were told, where the run goes on. Goes on over nodes of which nothing is asked.
pub(crate) fn next_question(
    alloc: Global,
    plan: &Plan,
    v: &View,
    attempts: &[Option<usize>],
    at: Progress,
) -> Result<Option<(Op, Progress)>, NoMemory>
    requires of_plan { IsViewOfPlan plan.now v.now }
    requires ids { HasPathsOfIds plan.now }
    requires known { HasAttempts plan.now v.now attempts.now }
    requires goes_on { is_broken plan.now v.now.state [] ≡ false }
    ensures { (told : Listed answers.Told) → HasCome plan.now v.now told at (length told)
        → IfOk result (FindsNext plan.now v.now told) }
{
    plan.primary();
    let mut half = at.half;
    let mut missed = at.missed;
    for number in at.next..plan.len() {
        if !half {
            if let Some(op) = first_question(alloc, plan, v, attempts, number)? {
                return Ok(Some((op, behind_first(number, missed))));
            }
        }
        if let Some(op) = second_question(alloc, plan, v, missed, number)? {
            return Ok(Some((op, start_of(number + 1))));
        }
        half = false;
        missed = false;
    }
    Ok(None)
}

/// Behind the first question of a node.
fn behind_first(next: u32, missed: bool) -> Progress
    ensures { result ≡ record { next = next; half = true; missed = missed } }
{
    Progress {
        next,
        half: true,
        missed,
    }
}

/// Before all questions of a node, of which nothing was told.
pub(crate) fn start_of(next: u32) -> Progress
    ensures { result ≡ record { next = next; half = false; missed = false } }
{
    Progress {
        next,
        half: false,
        missed: false,
    }
}

/// A question, a second copy of it, and how far the round has come with it.
#[derive(Drop)]
pub(crate) struct Asked {
    pub op: Op,
    pub kept: Op,
    pub at: Progress,
}

/// The next question twice.
pub(crate) fn next_twice(
    alloc: Global,
    plan: &Plan,
    v: &View,
    attempts: &[Option<usize>],
    at: Progress,
) -> Result<Option<Asked>, NoMemory>
    requires of_plan { IsViewOfPlan plan.now v.now }
    requires ids { HasPathsOfIds plan.now }
    requires known { HasAttempts plan.now v.now attempts.now }
    requires goes_on { is_broken plan.now v.now.state [] ≡ false }
    ensures { (told : Listed answers.Told) → HasCome plan.now v.now told at (length told)
        → IfOk result (FindsTwice plan.now v.now told) }
{
    match next_question(alloc, plan, v, attempts, at)? {
        Some((op, at)) => Ok(Some(Asked {
            kept: op.copy(alloc)?,
            op,
            at,
        })),
        None => Ok(None),
    }
}
