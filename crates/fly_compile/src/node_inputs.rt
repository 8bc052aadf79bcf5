//! What nodes want.
ghost use Rattle.std.specs.Prelude.{◌≡◌};
ghost use Rattle.fly_docs.specs.declared.node.Target.{out-Target};
ghost use Rattle.fly_docs.specs.declared.node.Target.TheOpen.{Target-F};
ghost use Rattle.fly_docs.specs.Form.{IsBundleInForm};
ghost use Rattle.fly_compile.specs.Sites.{AreInputsOf};

use crate::site::Inputs;
use fly_docs::{Identifier, Node, Target};
use fly_links::Directory;

/// What may be bound to the inputs of a node.
pub(crate) fn node_inputs<'a>(directory: &Directory<'a>, node: &'a Node) -> Inputs<'a>
    requires { IsBundleInForm directory.now }
    ensures { AreInputsOf directory.now (out-Target node.now.target) result }
{
    match &node.target {
        Target::Task(id) => task_inputs(directory, id),
        Target::Workflow(id) => workflow_inputs(directory, id),
        Target::Branch { .. } => Inputs::Primitives,
        Target::Array {
            task,
            min_successes,
        } => array_inputs(directory, task, *min_successes),
    }
}

fn task_inputs<'a>(directory: &Directory<'a>, id: &'a Identifier) -> Inputs<'a>
    requires { IsBundleInForm directory.now }
    ensures { AreInputsOf directory.now (Target-F.Task id.now) result }
{
    match directory.task(id) {
        Some(task) => Inputs::Values(&task.interface.inputs),
        None => Inputs::Unknown,
    }
}

fn workflow_inputs<'a>(directory: &Directory<'a>, id: &'a Identifier) -> Inputs<'a>
    requires { IsBundleInForm directory.now }
    ensures { AreInputsOf directory.now (Target-F.Workflow id.now) result }
{
    match directory.workflow(id) {
        Some(workflow) => Inputs::Values(&workflow.interface.inputs),
        None => Inputs::Unknown,
    }
}

fn array_inputs<'a>(
    directory: &Directory<'a>,
    task: &'a Identifier,
    min_successes: Option<u32>,
) -> Inputs<'a>
    requires { IsBundleInForm directory.now }
    ensures { AreInputsOf directory.now (Target-F.Array task.now min_successes) result }
{
    match directory.task(task) {
        Some(task) => Inputs::Lists(&task.interface.inputs),
        None => Inputs::Unknown,
    }
}
