ghost use Rattle.std.specs.Prelude.{◌≡◌, ◌≢◌, ◌≤◌, []};
ghost use Rattle.fly_ports.specs.Clock.{ClockState};
ghost use Rattle.fly_round.specs.declared.told.Told as calls;
ghost use Rattle.fly_state.specs.declared.entries.Op.TheVariants as ops;
ghost use Rattle.fly_work.specs.Closing.{Writes, Claims, GivesWork};
ghost use Rattle.fly_work.specs.Parts.{Closes, IsRoundOf};
ghost use Rattle.fly_work.specs.Stages.{Turn, Stage, asking, IsDue};

use crate::replies::found_memory;
use crate::service::Service;
use fly_ports::{Gate, Point};
use fly_state::{Move, Op, Plan, Reply, View};
use fly_types::{List, NoMemory, Text};
use fly_world::{Called, Work};

/// The end of a round: its Write, where there are moves, and a claim. Gives the work that was claimed. The gate is
/// always asked before it, also where there is nothing to write.
pub(crate) fn close<V: Service, G: Gate>(
    plan: &Plan,
    service: &mut V,
    gate: &mut G,
    worker: u32,
    exec: Text,
    base: u64,
    moves: List<Move>,
) -> Result<Option<Work>, NoMemory>
    requires own { (V.store service.old).plan ≡ plan.now }
    requires round { (v : View) × (told : List calls.Told) × IsRoundOf plan.now v told exec base moves }
    requires room { 2 ≤ (V.store service.old).spare }
    ensures closes { (t : Turn) (clock : ClockState) (v : View) (told : List calls.Told) → t.worker ≡ worker
        → IsRoundOf plan.now v told exec base moves
        → Closes (V.alone service.old) t (asking v told) (V.store service.old) (V.store service.new) clock result }
    ensures alone { V.alone service.old → V.alone service.new }
{
    gate.pause(Point::BeforeWrite);
    if !moves.is_empty() {
        write(service, worker, exec, base, moves)?;
    }
    claim(plan, service, worker)
}

/// The Write of a round.
fn write<V: Service>(
    service: &mut V,
    worker: u32,
    exec: Text,
    base: u64,
    moves: List<Move>,
) -> Result<(), NoMemory>
    requires round { (v : View) × (told : List calls.Told)
        × IsRoundOf (V.store service.old).plan v told exec base moves }
    requires room { 1 ≤ (V.store service.old).spare }
    ensures writes { (t : Turn) (clock : ClockState) (v : View) (told : List calls.Told) → t.worker ≡ worker
        → IsRoundOf (V.store service.old).plan v told exec base moves → moves ≢ []
        → Writes (V.alone service.old) t (asking v told) (V.store service.old) (V.store service.new) clock result }
    ensures alone { V.alone service.old → V.alone service.new }
{
    found_memory(service.call(worker, Op::Write { exec, base, moves }))
}

/// The claim of a turn, with the work that was claimed.
fn claim<V: Service>(plan: &Plan, service: &mut V, worker: u32) -> Result<Option<Work>, NoMemory>
    requires own { (V.store service.old).plan ≡ plan.now }
    requires room { 1 ≤ (V.store service.old).spare }
    ensures claims { (t : Turn) (from : Stage) (clock : ClockState) → t.worker ≡ worker
        → IsDue plan.now t from ops.Claim
        → Claims (V.alone service.old) t from (V.store service.old) (V.store service.new) clock result }
    ensures alone { V.alone service.old → V.alone service.new }
{
    // What is claimed was launched, and each node of the plan has its task: so there is work.
    let _task_nodes = plan.primary();
    let called = service.call(worker, Op::Claim);
    service.legal();
    claimed_work(called)
}

/// The work of what a claim gave, unless there was nothing to claim.
fn claimed_work(called: Called) -> Result<Option<Work>, NoMemory>
    ensures { GivesWork called result }
{
    let Called { reply, work, .. } = called;
    match reply {
        Reply::Nothing => Ok(None),
        _ => match work {
            Some(work) => Ok(Some(work)),
            None => Err(NoMemory),
        },
    }
}
