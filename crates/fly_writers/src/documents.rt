ghost use Rattle.std.specs.Prelude.{◌≡◌, map, IfOk, option_map};
ghost use Rattle.fly_writers.specs.Json.{message, optional_message, optional_map};
ghost use Rattle.fly_writers.specs.Built.{data_of};
ghost use Rattle.fly_writers.specs.Documents.{variable_entry, variables_json, interface_json, task_metadata_fields, container_fields, task_json, policy_json, workflow_metadata_fields, workflow_json};

use crate::bindings::bindings_value;
use crate::json::{Json, Message};
use crate::message::{message_of, optional_flag, texts_value};
use crate::nodes::{nodes_value, retries_value, task_id_value, timeout_value, workflow_id_value};
use crate::types::type_value;
use fly_docs::{Interface, Task, Workflow};
use fly_types::{NoMemory, Variable};
use std::alloc::Global;

/// The types of variables by name, which are left out where there is none.
fn variables_value(alloc: Global, variables: &[Variable]) -> Result<Option<Json>, NoMemory>
    ensures { IfOk result (λ o. option_map data_of o ≡ variables_json variables.now) }
{
    let types = types_by_name(alloc, variables)?;
    let mut message = Message::new(alloc);
    message.add("variables", types)?;
    Ok(message.into_optional())
}

fn types_by_name(alloc: Global, variables: &[Variable]) -> Result<Option<Json>, NoMemory>
    ensures { IfOk result (λ o. option_map data_of o ≡ optional_map (map variable_entry variables.now)) }
{
    let mut message = Message::new(alloc);
    for variable in variables {
        let kind = type_value(alloc, &variable.kind)?;
        message.put(variable.name.as_str(), message_of(alloc, "type", kind)?)?;
    }
    Ok(message.into_optional())
}

fn interface_value(alloc: Global, interface: &Interface) -> Result<Option<Json>, NoMemory>
    ensures { IfOk result (λ o. option_map data_of o ≡ interface_json interface.now) }
{
    let mut message = Message::new(alloc);
    message.add(
        "inputs",
        variables_value(alloc, interface.inputs.as_slice())?,
    )?;
    message.add(
        "outputs",
        variables_value(alloc, interface.outputs.as_slice())?,
    )?;
    Ok(message.into_optional())
}

fn task_metadata_value(alloc: Global, task: &Task) -> Result<Option<Json>, NoMemory>
    ensures { IfOk result (λ o. option_map data_of o ≡ optional_message (task_metadata_fields task.now)) }
{
    let mut message = Message::new(alloc);
    message.add("discoverable", optional_flag(task.cached))?;
    message.add("timeout", timeout_value(alloc, task.timeout_ms)?)?;
    message.add("retries", retries_value(alloc, task.retries)?)?;
    message.optional_text("discoveryVersion", task.cache_version.as_str())?;
    message.add("cacheSerializable", optional_flag(task.serializable))?;
    Ok(message.into_optional())
}

fn container_value(alloc: Global, task: &Task) -> Result<Json, NoMemory>
    ensures { IfOk result (λ j. data_of j ≡ message (container_fields task.now)) }
{
    let mut message = Message::new(alloc);
    message.add("command", texts_value(alloc, task.command.as_slice())?)?;
    message.add("args", texts_value(alloc, task.args.as_slice())?)?;
    Ok(message.into_json())
}

/// The JSON of a task.
pub fn task_value(alloc: Global, task: &Task) -> Result<Json, NoMemory>
    ensures { IfOk result (λ j. data_of j ≡ task_json task.now) }
{
    let mut message = Message::new(alloc);
    message.put("id", task_id_value(alloc, &task.id)?)?;
    message.add("metadata", task_metadata_value(alloc, task)?)?;
    message.add("interface", interface_value(alloc, &task.interface)?)?;
    message.put("container", container_value(alloc, task)?)?;
    Ok(message.into_json())
}

fn policy_value(alloc: Global, fail_late: bool) -> Result<Option<Json>, NoMemory>
    ensures { IfOk result (λ o. option_map data_of o ≡ policy_json fail_late) }
{
    if !fail_late {
        return Ok(None);
    }
    Ok(Some(Json::text(alloc, "FAIL_AFTER_EXECUTABLE_NODES_COMPLETE")?))
}

fn workflow_metadata_value(alloc: Global, workflow: &Workflow) -> Result<Option<Json>, NoMemory>
    ensures { IfOk result (λ o. option_map data_of o ≡ optional_message (workflow_metadata_fields workflow.now)) }
{
    let mut message = Message::new(alloc);
    message.add("onFailure", policy_value(alloc, workflow.fail_late)?)?;
    Ok(message.into_optional())
}

/// The JSON of a workflow.
pub fn workflow_value(alloc: Global, workflow: &Workflow) -> Result<Json, NoMemory>
    ensures { IfOk result (λ j. data_of j ≡ workflow_json workflow.now) }
{
    let mut message = Message::new(alloc);
    message.put("id", workflow_id_value(alloc, &workflow.id)?)?;
    message.add("metadata", workflow_metadata_value(alloc, workflow)?)?;
    message.add("interface", interface_value(alloc, &workflow.interface)?)?;
    message.add("nodes", nodes_value(alloc, workflow.nodes.as_slice())?)?;
    message.add(
        "outputs",
        bindings_value(alloc, workflow.outputs.as_slice())?,
    )?;
    Ok(message.into_json())
}
