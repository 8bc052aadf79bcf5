//! What is wrong with the run of a bundle: workflows that run themselves, and runs that are too large.
ghost use Rattle.std.specs.Prelude.{◌≡◌, ◌++◌, ◌∷◌, [], map, OnOk};
ghost use Rattle.std.specs.Option.{option_copied};
ghost use Rattle.fly_docs.specs.Lookups.{primary_of};
ghost use Rattle.fly_faults.specs.FaultList as spec;
ghost use Rattle.fly_faults.specs.Places as places;

use crate::{Code, Fault};
use fly_docs::Workflow;
use fly_faults::report_at;
use fly_links::Reach;
use fly_types::NoMemory;
use std::alloc::Global;

/// How many nodes a run may have.
const MAX_PLAN: usize = 4096;

/// How many of them may be arrays.
const MAX_ARRAYS: usize = 16;

/// RecursiveWorkflow for each of these.
fn push_recursive_faults(
    alloc: Global,
    faults: &mut Vec<Fault>,
    recursive: &[(usize, &Workflow)],
) -> Result<(), NoMemory>
    ensures { OnOk result (faults.new.items ≡ faults.old.items
        ++ map (λ at. places.fault_at Code.RecursiveWorkflow (places.workflow_name at.1.now)) recursive.now) }
{
    for (_, workflow) in recursive {
        report_at(alloc, faults, Code::RecursiveWorkflow, &workflow.id.name)?;
    }
    Ok(())
}

/// NestingTooDeep, else PlanTooLarge, else TooManyArrays, at the primary workflow.
fn push_limit_faults(
    alloc: Global,
    faults: &mut Vec<Fault>,
    reach: &Reach<'_>,
    primary: &Workflow,
) -> Result<(), NoMemory>
    ensures { OnOk result (faults.new.items ≡ faults.old.items ++ spec.limit_faults reach.now primary.now) }
{
    let name = &primary.id.name;
    if reach.nests_too_deep() {
        return report_at(alloc, faults, Code::NestingTooDeep, name);
    }
    if reach.plan_size() > MAX_PLAN {
        return report_at(alloc, faults, Code::PlanTooLarge, name);
    }
    if reach.array_count() > MAX_ARRAYS {
        return report_at(alloc, faults, Code::TooManyArrays, name);
    }
    Ok(())
}

/// RecursiveWorkflow for each workflow that reaches itself, and the limits of the run where there is none.
pub(crate) fn push_run_faults(
    alloc: Global,
    faults: &mut Vec<Fault>,
    reach: &Reach<'_>,
    primary: Option<&Workflow>,
) -> Result<(), NoMemory>
    requires { option_copied primary ≡ primary_of reach.now }
    ensures { OnOk result (faults.new.items ≡ faults.old.items ++ spec.or_limits reach.now (spec.recursive_faults reach.now)) }
{
    let recursive = reach.recursive();
    if !recursive.is_empty() {
        return push_recursive_faults(alloc, faults, recursive);
    }
    match primary {
        Some(primary) => push_limit_faults(alloc, faults, reach, primary),
        None => Ok(()),
    }
}
