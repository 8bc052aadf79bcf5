ghost use Rattle.std.specs.Prelude.{◌≡◌, ◌≤◌, ◌<◌, Some};
ghost use Rattle.fly_ports.specs.Clock.{ClockState};
ghost use Rattle.fly_round.specs.Questions.{AsksWhere, next_question};
ghost use Rattle.fly_state.specs.OfPlan.{IsViewOfPlan};
ghost use Rattle.fly_work.specs.Asking.{AsksOne};
ghost use Rattle.fly_work.specs.Parts.{AsksAll, MayStand};
ghost use Rattle.fly_work.specs.Stages.{Turn};

use crate::service::Service;
use fly_round::Round;
use fly_state::{Move, Op, Plan, Reply, View};
use fly_types::{List, NoMemory};
use std::alloc::Global;

/// The round of a turn: asks all its questions, and gives its moves.
pub(crate) fn ask_all<V: Service>(
    alloc: Global,
    plan: &Plan,
    service: &mut V,
    worker: u32,
    view: View,
) -> Result<List<Move>, NoMemory>
    requires own { (V.store service.old).plan ≡ plan.now }
    requires of_plan { IsViewOfPlan plan.now view }
    requires room { 2_048 ≤ (V.store service.old).spare }
    ensures asks { (t : Turn) (clock : ClockState) → t.worker ≡ worker
        → AsksAll (V.alone service.old) t view (V.store service.old) (V.store service.new) clock result }
    ensures alone { V.alone service.old → V.alone service.new }
{
    plan.primary();
    let mut round = Round::make(alloc, plan, view)?;
    'questions: while let Some(op) = round.ask()? {
        ask_one(service, &mut round, worker, op)?;
    }
    round.finish()
}

/// Asks the question that waits in a round, and tells the round the reply.
fn ask_one<V: Service>(
    service: &mut V,
    round: &mut Round<'_>,
    worker: u32,
    op: Op,
) -> Result<(), NoMemory>
    requires waits { round.old.waiting ≡ Some op }
    requires question { AsksWhere round.old.view.name (next_question round.old.plan round.old.view round.old.told)
        (Some op) }
    requires own { (V.store service.old).plan ≡ round.old.plan }
    requires stands { MayStand (V.store service.old).plan worker op }
    requires room { 0 < (V.store service.old).spare }
    ensures asks { AsksOne (V.alone service.old) worker round.old round.new
        (V.store service.old) (V.store service.new) result }
    ensures alone { V.alone service.old → V.alone service.new }
{
    let called = service.call(worker, op);
    match called.reply {
        Reply::NoMemory => Err(NoMemory),
        reply => {
            round.tell(called.place, reply);
            Ok(())
        }
    }
}
