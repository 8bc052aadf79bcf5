//! The compiler of bundles.
ghost use Rattle.std.specs.Prelude.{◌≡◌, ◌++◌, flat_map, map, OnOk, IfOk};
ghost use Rattle.std.specs.List.{All};
ghost use Rattle.fly_docs.specs.Form.{IsBundleInForm, IsWorkflowInForm, IsTaskInForm};
ghost use Rattle.fly_compile.specs.Compiler.{IsCompiled};
ghost use Rattle.fly_faults.specs.FaultList as spec;

use crate::bundle_faults::push_bundle_faults;
use crate::run_faults::push_run_faults;
use crate::workflow_faults::push_faults_of_workflow;
use crate::{CompileFault, Fault};
use fly_closures::closures_are_typed;
use fly_docs::{Bundle, Closure, Task, Workflow};
use fly_faults::push_template_faults;
use fly_links::{Directory, Reach, closure_of};
use fly_types::{List, NoMemory};
use std::alloc::Global;

/// The faults of these workflows of the bundle.
fn push_workflows_faults<'a>(
    alloc: Global,
    faults: &mut Vec<Fault>,
    directory: &Directory<'a>,
    workflows: &[(usize, &'a Workflow)],
) -> Result<(), NoMemory>
    requires form { IsBundleInForm directory.now }
    requires workflows { All (λ at. IsWorkflowInForm at.1.now) workflows.now }
    ensures { OnOk result (faults.new.items ≡ faults.old.items ++ flat_map (λ at. spec.faults_of_workflow directory.now at.1.now) workflows.now) }
{
    for (_, workflow) in workflows {
        push_faults_of_workflow(alloc, faults, directory, workflow)?;
    }
    Ok(())
}

/// The faults of the templates of these tasks.
fn push_tasks_faults(
    alloc: Global,
    faults: &mut Vec<Fault>,
    tasks: &[(usize, &Task)],
) -> Result<(), NoMemory>
    requires { All (λ at. IsTaskInForm at.1.now) tasks.now }
    ensures { OnOk result (faults.new.items ≡ faults.old.items ++ flat_map (λ at. spec.template_faults at.1.now) tasks.now) }
{
    for (_, task) in tasks {
        push_template_faults(alloc, faults, task)?;
    }
    Ok(())
}

/// All faults of the bundle, in the order of the report.
fn faults_of<'a>(
    alloc: Global,
    directory: &Directory<'a>,
    reach: &Reach<'a>,
) -> Result<Vec<Fault>, NoMemory>
    requires form { IsBundleInForm directory.now }
    requires reach { reach.now ≡ directory.now }
    ensures { IfOk result (λ faults. faults.items ≡ spec.faults_of directory.now) }
{
    let mut faults = Vec::new(alloc);
    push_bundle_faults(alloc, &mut faults, directory)?;
    push_workflows_faults(alloc, &mut faults, directory, reach.workflows())?;
    push_tasks_faults(alloc, &mut faults, reach.tasks())?;
    push_run_faults(alloc, &mut faults, reach, directory.primary())?;
    Ok(faults)
}

/// Compiles a bundle: its closure, where it has no fault, and all its faults where it has one.
pub fn compile(alloc: Global, bundle: &Bundle) -> Result<Closure, CompileFault>
    requires { IsBundleInForm bundle.now }
    ensures { IsCompiled bundle.now result }
{
    let directory = Directory::of(alloc, bundle)?;
    let reach = Reach::of(alloc, &directory)?;
    let faults = faults_of(alloc, &directory, &reach)?;
    if !faults.is_empty() {
        return Err(CompileFault::Refused(List::from_vec(faults)));
    }
    match closure_of(alloc, &directory, &reach)? {
        Some(closure) => {
            closures_are_typed();
            Ok(closure)
        }
        None => unreachable!(),
    }
}
