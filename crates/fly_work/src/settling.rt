ghost use Rattle.std.specs.Prelude.{◌≡◌, ◌≤◌};
ghost use Rattle.fly_state.specs.declared.entries.Op.TheVariants as ops;
ghost use Rattle.fly_work.specs.Parts.{MayStand, Settles};
ghost use Rattle.fly_work.specs.Stages.{Turn};
ghost use Rattle.fly_world.specs.declared.work.Work as works;

use crate::replies::found_memory;
use crate::service::Service;
use fly_docs::AttemptName;
use fly_policy::Outcome;
use fly_ports::Clock;
use fly_state::Op;
use fly_types::NoMemory;

/// The end of an attempt whose child has ended: a tick, and what the attempt came to.
pub(crate) fn settle<V: Service, C: Clock>(
    service: &mut V,
    clock: &mut C,
    worker: u32,
    name: AttemptName,
    outcome: Outcome,
) -> Result<(), NoMemory>
    requires stands { MayStand (V.store service.old).plan worker (ops.Finish name outcome) }
    requires room { 2 ≤ (V.store service.old).spare }
    ensures settles { (t : Turn) (work : works.Work) → t.worker ≡ worker → work.name ≡ name
        → Settles (V.alone service.old) t work outcome (V.store service.old) (V.store service.new)
        (C.state clock.old) (C.state clock.new) result }
    ensures alone { V.alone service.old → V.alone service.new }
{
    let now = clock.now();
    found_memory(service.call(worker, Op::Tick { now }))?;
    found_memory(service.call(worker, Op::Finish { name, outcome }))
}
