ghost use Rattle.std.specs.Prelude.{◌≡◌, ◌≤◌, ◌<◌};
ghost use Rattle.fly_work.specs.Opening.{Reads, Sweeps, Ticks};
ghost use Rattle.fly_work.specs.Parts.{Opens};
ghost use Rattle.fly_work.specs.Stages.{Turn, read_from, read_back};

use crate::replies::found_memory;
use crate::service::Service;
use fly_ports::{Clock, Gate, Point};
use fly_state::{Op, Plan, Reply, View};
use fly_types::NoMemory;
use fly_world::{Called, worlds_are_of_plan};

/// The beginning of a turn: its tick, its sweep, and its read of an execution that is not over. None where every one
/// is.
pub(crate) fn open<V: Service, C: Clock, G: Gate>(
    plan: &Plan,
    service: &mut V,
    clock: &mut C,
    gate: &mut G,
    worker: u32,
    from: u64,
    back: u64,
) -> Result<Option<View>, NoMemory>
    requires own { (V.store service.old).plan ≡ plan.now }
    requires room { 3 ≤ (V.store service.old).spare }
    ensures opens { (t : Turn) → t.worker ≡ worker → from ≡ read_from t → back ≡ read_back t
        → Opens (V.alone service.old) t (V.store service.old) (V.store service.new) (C.state clock.old)
        (C.state clock.new) result }
    ensures alone { V.alone service.old → V.alone service.new }
{
    tick(service, clock, worker)?;
    sweep(service, worker)?;
    let view = read(plan, service, worker, from, back)?;
    gate.pause(Point::AfterRead);
    Ok(view)
}

/// A tick at the moment that the clock gives.
fn tick<V: Service, C: Clock>(service: &mut V, clock: &mut C, worker: u32) -> Result<(), NoMemory>
    requires room { 0 < (V.store service.old).spare }
    ensures ticks { Ticks (V.alone service.old) (V.store service.old) (V.store service.new) worker (C.state clock.old)
        (C.state clock.new) result }
    ensures alone { V.alone service.old → V.alone service.new }
{
    let now = clock.now();
    found_memory(service.call(worker, Op::Tick { now }))
}

/// A sweep of the reservations.
fn sweep<V: Service>(service: &mut V, worker: u32) -> Result<(), NoMemory>
    requires room { 0 < (V.store service.old).spare }
    ensures sweeps { Sweeps (V.alone service.old) (V.store service.old) (V.store service.new) worker result }
    ensures alone { V.alone service.old → V.alone service.new }
{
    found_memory(service.call(worker, Op::Sweep))
}

/// A read of an execution that is not over, from this place on, so many versions back. None where every one is over.
fn read<V: Service>(
    plan: &Plan,
    service: &mut V,
    worker: u32,
    from: u64,
    back: u64,
) -> Result<Option<View>, NoMemory>
    requires own { (V.store service.old).plan ≡ plan.now }
    requires room { 0 < (V.store service.old).spare }
    ensures reads { Reads (V.alone service.old) (V.store service.old) (V.store service.new) worker from back result }
    ensures alone { V.alone service.old → V.alone service.new }
{
    let Called { reply, view, .. } = service.call(worker, Op::Read { from, back });
    service.legal();
    let _task_nodes = plan.primary();
    worlds_are_of_plan();
    if matches!(reply, Reply::Idle) {
        return Ok(None);
    }
    match view {
        Some(view) => Ok(Some(view)),
        None => Err(NoMemory),
    }
}
