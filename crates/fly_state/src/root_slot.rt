//! What the end of a run makes of its root.
ghost use Rattle.std.specs.Prelude.{◌≡◌, [], Some, IsTrue, IfOk, is_some};
ghost use Rattle.fly_state.specs.Moves as words;
ghost use Rattle.fly_state.specs.OfPlan.{IsOfPlan};

use crate::closing::{has_failure, misses_output};
use crate::node_slots::failed_slot;
use crate::taking::run_outputs;
use crate::values::ValueFault;
use crate::{ExecState, Phase, Plan, SlotState};
use fly_types::NoMemory;
use std::alloc::Global;

/// What the root comes to, where the run may close.
pub(crate) fn closed_root(alloc: Global, p: &Plan, state: &ExecState) -> Result<SlotState, NoMemory>
    requires of_plan { IsOfPlan p.now state.now }
    requires legal { IsTrue (is_some (words.closed_instance_slot p.now state.now [])) }
    ensures { IfOk result (λ slot. words.closed_instance_slot p.now state.now [] ≡ Some slot) }
{
    let primary = p.primary();
    let mut slot = state.root.copy(alloc)?;
    if has_failure(p, state) {
        return failed_slot(alloc, slot, "NodeFailed");
    }
    if misses_output(p, state, primary.outputs.as_slice()) {
        return failed_slot(alloc, slot, "OutputMissing");
    }
    match run_outputs(alloc, p, state) {
        Ok(outputs) => {
            slot.phase = Phase::Succeeded;
            slot.outputs = Some(outputs);
            Ok(slot)
        }
        Err(ValueFault::Outside(_)) => failed_slot(alloc, slot, "EnumOutside"),
        Err(ValueFault::Unknown) => unreachable!(),
        Err(ValueFault::NoMemory) => Err(NoMemory),
    }
}
