ghost use Rattle.std.specs.Prelude.{◌≡◌, ◌++◌, false, map, drop, slice_get, codes, IfOk, OnOk, option_map};
ghost use Rattle.serde_json.specs.View.{items_of};
ghost use Rattle.serde_json.specs.Written.{items_text};
ghost use Rattle.fly_writers.specs.Json.{optional_list};
ghost use Rattle.fly_writers.specs.Built.{data_of};
ghost use Rattle.fly_writers.specs.Closures.{id_lists_json, connections_json, compiled_workflow_json, compiled_task_json, compiled_workflows, closure_text, name_text, value_text, PutsField};

use crate::documents::{task_value, workflow_value};
use crate::json::{Json, Message};
use crate::message::{message_of, message_with, texts_value};
use fly_docs::{Closure, Connections, Task, Workflow};
use fly_types::{List, NoMemory, Text};
use std::alloc::Global;

/// The ids by node, which are left out where there is none.
fn id_lists_value(alloc: Global, lists: &[(Text, List<Text>)]) -> Result<Option<Json>, NoMemory>
    ensures { IfOk result (λ o. option_map data_of o ≡ id_lists_json lists.now) }
{
    let mut message = Message::new(alloc);
    for (node, ids) in lists {
        let ids = texts_value(alloc, ids.as_slice())?;
        message.put(node.as_str(), message_with(alloc, "ids", ids)?)?;
    }
    Ok(message.into_optional())
}

fn connections_value(alloc: Global, connections: &Connections) -> Result<Option<Json>, NoMemory>
    ensures { IfOk result (λ o. option_map data_of o ≡ connections_json connections.now) }
{
    let mut message = Message::new(alloc);
    message.add(
        "downstream",
        id_lists_value(alloc, connections.downstream.as_slice())?,
    )?;
    message.add(
        "upstream",
        id_lists_value(alloc, connections.upstream.as_slice())?,
    )?;
    Ok(message.into_optional())
}

fn compiled_workflow_value(
    alloc: Global,
    workflow: &Workflow,
    connections: &Connections,
) -> Result<Json, NoMemory>
    ensures { IfOk result (λ j. data_of j ≡ compiled_workflow_json workflow.now connections.now) }
{
    let mut message = Message::new(alloc);
    message.put("template", workflow_value(alloc, workflow)?)?;
    message.add("connections", connections_value(alloc, connections)?)?;
    Ok(message.into_json())
}

fn compiled_task_value(alloc: Global, task: &Task) -> Result<Json, NoMemory>
    ensures { IfOk result (λ j. data_of j ≡ compiled_task_json task.now) }
{
    let task = task_value(alloc, task)?;
    message_of(alloc, "template", task)
}

/// Adds the name of a field, behind a comma where a field stands before.
fn put_name(alloc: Global, text: &mut Vec<u8>, later: bool, name: &str) -> Result<(), NoMemory>
    ensures { OnOk result (text.new.items ≡ text.old.items ++ name_text later name.now) }
{
    put_value(alloc, text, later, &Json::text(alloc, name)?)?;
    text.push(b':')?;
    Ok(())
}

/// Adds the text of a value, behind a comma where a value stands before.
fn put_value(alloc: Global, text: &mut Vec<u8>, later: bool, value: &Json) -> Result<(), NoMemory>
    ensures { OnOk result (text.new.items ≡ text.old.items ++ value_text later (data_of value.now)) }
{
    if later {
        text.push(b',')?;
    }
    let written = value.to_vec(alloc)?;
    text.extend_from_slice(&written)?;
    Ok(())
}

/// Adds the workflows, each with its connections, and the bracket that ends a list.
fn put_workflows(
    alloc: Global,
    text: &mut Vec<u8>,
    workflows: &[Workflow],
    connections: &[Connections],
) -> Result<(), NoMemory>
    ensures { OnOk result (text.new.items
        ≡ text.old.items ++ items_text false (items_of (compiled_workflows workflows.now connections.now))) }
{
    let mut later = false;
    let mut connections = connections.iter();
    for workflow in workflows {
        let Some(own) = connections.next() else {
            break;
        };
        let value = compiled_workflow_value(alloc, workflow, own)?;
        put_value(alloc, text, later, &value)?;
        later = true;
    }
    text.push(b']')?;
    Ok(())
}

/// Adds the tasks, and the bracket that ends a list.
fn put_tasks(alloc: Global, text: &mut Vec<u8>, tasks: &[Task]) -> Result<(), NoMemory>
    ensures { OnOk result (text.new.items
        ≡ text.old.items ++ items_text false (items_of (map compiled_task_json tasks.now))) }
{
    let mut later = false;
    for task in tasks {
        let value = compiled_task_value(alloc, task)?;
        put_value(alloc, text, later, &value)?;
        later = true;
    }
    text.push(b']')?;
    Ok(())
}

/// Adds the field of the primary workflow, which has the first connections, and tells whether it is there.
fn put_primary(
    alloc: Global,
    text: &mut Vec<u8>,
    workflow: &Workflow,
    connections: &[Connections],
) -> Result<bool, NoMemory>
    ensures { IfOk result (λ there. PutsField text.old.items text.new.items false there (codes "primary")
        (option_map (compiled_workflow_json workflow.now) (slice_get connections.now 0))) }
{
    let Some(own) = connections.first() else {
        return Ok(false);
    };
    let value = compiled_workflow_value(alloc, workflow, own)?;
    put_name(alloc, text, false, "primary")?;
    put_value(alloc, text, false, &value)?;
    Ok(true)
}

/// Adds the field of the other workflows, and tells whether a field stands now.
fn put_subs(
    alloc: Global,
    text: &mut Vec<u8>,
    later: bool,
    workflows: &[Workflow],
    connections: &[Connections],
) -> Result<bool, NoMemory>
    ensures { IfOk result (λ there. PutsField text.old.items text.new.items later there (codes "subWorkflows")
        (optional_list (compiled_workflows workflows.now connections.now))) }
{
    if workflows.is_empty() || connections.is_empty() {
        return Ok(later);
    }
    put_name(alloc, text, later, "subWorkflows")?;
    text.push(b'[')?;
    put_workflows(alloc, text, workflows, connections)?;
    Ok(true)
}

/// Adds the field of the tasks, and tells whether a field stands now.
fn put_task_list(
    alloc: Global,
    text: &mut Vec<u8>,
    later: bool,
    tasks: &[Task],
) -> Result<bool, NoMemory>
    ensures { IfOk result (λ there. PutsField text.old.items text.new.items later there (codes "tasks")
        (optional_list (map compiled_task_json tasks.now))) }
{
    if tasks.is_empty() {
        return Ok(later);
    }
    put_name(alloc, text, later, "tasks")?;
    text.push(b'[')?;
    put_tasks(alloc, text, tasks)?;
    Ok(true)
}

/// All but the first.
fn others(connections: &[Connections]) -> &[Connections]
    ensures { result.now ≡ drop 1 connections.now }
{
    match connections {
        [_, others @ ..] => others,
        [] => connections,
    }
}

/// The JSON of a closure, flyteidl's `CompiledWorkflowClosure`, with no space and with the keys of each object sorted by their
/// bytes. Its tasks and workflows are written one by one, so that no tree of the whole closure is built.
pub fn write_closure(alloc: Global, closure: &Closure) -> Result<Vec<u8>, NoMemory>
    ensures { IfOk result (λ text. text.items ≡ closure_text closure.now) }
{
    let connections = closure.connections.as_slice();
    let mut text = Vec::new(alloc);
    text.push(b'{')?;
    let later = put_primary(alloc, &mut text, &closure.primary, connections)?;
    let subs = closure.subs.as_slice();
    let later = put_subs(alloc, &mut text, later, subs, others(connections))?;
    put_task_list(alloc, &mut text, later, closure.tasks.as_slice())?;
    text.push(b'}')?;
    Ok(text)
}
