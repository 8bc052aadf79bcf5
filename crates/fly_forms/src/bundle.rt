//! The form of tasks, workflows and bundles.
ghost use Rattle.std.specs.Prelude.{◌≡◌, ◌↔◌, IsTrue};
ghost use Rattle.std.specs.List.{All};
ghost use Rattle.fly_docs.specs.Form.{HasNamesInOrder, IsTaskInForm, IsWorkflowInForm, IsBundleInForm};

use crate::bindings::are_bindings_in_form;
use crate::nodes::{MOST_RETRIES, are_nodes_in_form};
use fly_docs::{Bundle, Interface, Task, Workflow, are_in_order};

/// Whether the bundle is in form. Takes no memory.
pub fn is_bundle_in_form(b: &Bundle) -> bool
    ensures { IsTrue result ↔ IsBundleInForm b.now }
{
    are_tasks_in_form(b.tasks.as_slice()) && are_workflows_in_form(b.workflows.as_slice())
}

fn are_tasks_in_form(tasks: &[Task]) -> bool
    ensures { IsTrue result ↔ All IsTaskInForm tasks.now }
{
    for task in tasks {
        if !is_task_in_form(task) {
            return false;
        }
    }
    true
}

fn is_task_in_form(task: &Task) -> bool
    ensures { IsTrue result ↔ IsTaskInForm task.now }
{
    task.retries <= MOST_RETRIES && has_names_in_order(&task.interface)
}

fn has_names_in_order(interface: &Interface) -> bool
    ensures { IsTrue result ↔ HasNamesInOrder interface.now }
{
    are_in_order(interface.inputs.as_slice()) && are_in_order(interface.outputs.as_slice())
}

fn are_workflows_in_form(workflows: &[Workflow]) -> bool
    ensures { IsTrue result ↔ All IsWorkflowInForm workflows.now }
{
    for workflow in workflows {
        if !is_workflow_in_form(workflow) {
            return false;
        }
    }
    true
}

fn is_workflow_in_form(workflow: &Workflow) -> bool
    ensures { IsTrue result ↔ IsWorkflowInForm workflow.now }
{
    has_names_in_order(&workflow.interface)
        && are_nodes_in_form(workflow.nodes.as_slice())
        && are_bindings_in_form(workflow.outputs.as_slice())
}
