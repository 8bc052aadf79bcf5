//! What is wrong with the lists of a bundle and with its primary workflow.
ghost use Rattle.std.specs.Prelude.{◌≡◌, ◌++◌, ◌∷◌, [], map, OnOk};
ghost use Rattle.fly_faults.specs.FaultList as spec;
ghost use Rattle.fly_faults.specs.Places as places;

use crate::{Code, Fault};
use fly_faults::{element_place, report_at};
use fly_links::Directory;
use fly_types::{NoMemory, Text};
use std::alloc::Global;

/// DuplicateId for an element of the list.
fn push_repeated_fault(
    alloc: Global,
    faults: &mut Vec<Fault>,
    list: &str,
    index: usize,
) -> Result<(), NoMemory>
    ensures { OnOk result (faults.new.items ≡ faults.old.items ++ places.fault_at Code.DuplicateId (places.element_place list.now index) ∷ []) }
{
    let place = element_place(alloc, list, index)?;
    report_at(alloc, faults, Code::DuplicateId, &place)
}

/// DuplicateId for the elements at these places of the list.
fn push_repeated_faults(
    alloc: Global,
    faults: &mut Vec<Fault>,
    list: &str,
    repeated: &[usize],
) -> Result<(), NoMemory>
    ensures { OnOk result (faults.new.items ≡ faults.old.items ++ map (λ i. places.fault_at Code.DuplicateId (places.element_place list.now i)) repeated.now) }
{
    for index in repeated {
        push_repeated_fault(alloc, faults, list, *index)?;
    }
    Ok(())
}

/// WorkflowNotFound, where the bundle does not have its primary workflow.
fn push_primary_faults(
    alloc: Global,
    faults: &mut Vec<Fault>,
    directory: &Directory<'_>,
) -> Result<(), NoMemory>
    ensures { OnOk result (faults.new.items ≡ faults.old.items ++ spec.primary_faults directory.now) }
{
    if directory.primary().is_some() {
        return Ok(());
    }
    let place = Text::from_str(alloc, "primary")?;
    report_at(alloc, faults, Code::WorkflowNotFound, &place)
}

/// The faults of ids that stand twice, and of the primary workflow.
pub(crate) fn push_bundle_faults(
    alloc: Global,
    faults: &mut Vec<Fault>,
    directory: &Directory<'_>,
) -> Result<(), NoMemory>
    ensures { OnOk result (faults.new.items ≡ faults.old.items ++ spec.bundle_faults directory.now) }
{
    let tasks = directory.repeated_tasks(alloc)?;
    let workflows = directory.repeated_workflows(alloc)?;
    push_repeated_faults(alloc, faults, "tasks", tasks.as_slice())?;
    push_repeated_faults(alloc, faults, "workflows", workflows.as_slice())?;
    push_primary_faults(alloc, faults, directory)
}
