ghost use Rattle.std.specs.Prelude.{◌≡◌, ◌∷◌, [], map, drop, slice_get, IfOk, OnOk, option_map, codes};
ghost use Rattle.fly_writers.specs.Json.{message, message_of as message_of_one, with_fields, optional_message, optional_list};
ghost use Rattle.serde_json.specs.Data.{number, unsigned};
ghost use Rattle.fly_writers.specs.Conditions.{expr_json};
ghost use Rattle.fly_writers.specs.Built.{data_of, members_of};
ghost use Rattle.fly_writers.specs.Nodes.{identifier_json, task_id_json, workflow_id_json, timeout_json, retries_json, node_metadata_fields, task_node_fields, workflow_node_fields, array_node_fields, branch_error_json, target_fields, case_json, node_json};

use crate::bindings::bindings_value;
use crate::conditions::expr_value;
use crate::json::{Elements, Json, Message};
use crate::message::{message_of, message_with, optional_number, texts_value};
use fly_docs::{Case, Identifier, Node, Target};
use fly_exprs::Expr;
use fly_scalars::write_millis;
use fly_types::{Boxed, NoMemory, Text};
use std::alloc::Global;

fn identifier_value(alloc: Global, resource: &str, id: &Identifier) -> Result<Json, NoMemory>
    ensures { IfOk result (λ j. data_of j ≡ identifier_json resource.now id.now) }
{
    let mut message = Message::new(alloc);
    message.text("resourceType", resource)?;
    message.optional_text("project", id.project.as_str())?;
    message.optional_text("domain", id.domain.as_str())?;
    message.text("name", id.name.as_str())?;
    message.optional_text("version", id.version.as_str())?;
    Ok(message.into_json())
}

pub fn task_id_value(alloc: Global, id: &Identifier) -> Result<Json, NoMemory>
    ensures { IfOk result (λ j. data_of j ≡ task_id_json id.now) }
{
    identifier_value(alloc, "TASK", id)
}

pub fn workflow_id_value(alloc: Global, id: &Identifier) -> Result<Json, NoMemory>
    ensures { IfOk result (λ j. data_of j ≡ workflow_id_json id.now) }
{
    identifier_value(alloc, "WORKFLOW", id)
}

/// A timeout in milliseconds, which is left out where it is 0.
pub fn timeout_value(alloc: Global, millis: u64) -> Result<Option<Json>, NoMemory>
    ensures { IfOk result (λ o. option_map data_of o ≡ timeout_json millis) }
{
    if millis == 0 {
        return Ok(None);
    }
    Ok(Some(Json::string(write_millis(alloc, millis)?)))
}

/// A retry strategy, which is left out where no attempt may follow the first.
pub fn retries_value(alloc: Global, retries: u32) -> Result<Option<Json>, NoMemory>
    ensures { IfOk result (λ o. option_map data_of o ≡ retries_json retries) }
{
    let mut message = Message::new(alloc);
    message.add("retries", optional_number(retries))?;
    Ok(message.into_optional())
}

fn metadata_value(alloc: Global, timeout_ms: u64, retries: u32) -> Result<Option<Json>, NoMemory>
    ensures { IfOk result (λ o. option_map data_of o ≡ optional_message (node_metadata_fields timeout_ms retries)) }
{
    let mut message = Message::new(alloc);
    message.add("timeout", timeout_value(alloc, timeout_ms)?)?;
    message.add("retries", retries_value(alloc, retries)?)?;
    Ok(message.into_optional())
}

fn task_node_value(alloc: Global, task: &Identifier) -> Result<Json, NoMemory>
    ensures { IfOk result (λ j. data_of j ≡ message (task_node_fields task.now)) }
{
    let task = task_id_value(alloc, task)?;
    message_of(alloc, "referenceId", task)
}

fn workflow_node_value(alloc: Global, workflow: &Identifier) -> Result<Json, NoMemory>
    ensures { IfOk result (λ j. data_of j ≡ message (workflow_node_fields workflow.now)) }
{
    let workflow = workflow_id_value(alloc, workflow)?;
    message_of(alloc, "subWorkflowRef", workflow)
}

fn array_node_value(
    alloc: Global,
    task: &Identifier,
    min_successes: Option<u32>,
) -> Result<Json, NoMemory>
    ensures { IfOk result (λ j. data_of j ≡ message (array_node_fields task.now min_successes)) }
{
    let task = task_node_value(alloc, task)?;
    let mut message = Message::new(alloc);
    message.put("node", message_of(alloc, "taskNode", task)?)?;
    message.add("minSuccesses", min_successes_value(min_successes))?;
    Ok(message.into_json())
}

/// How many items have to succeed, which is written where it is given, 0 too.
fn min_successes_value(min_successes: Option<u32>) -> Option<Json>
    ensures { option_map data_of result ≡ option_map (λ n. number (unsigned n)) min_successes }
{
    match min_successes {
        Some(count) => Some(Json::number(count)),
        None => None,
    }
}

/// A condition, where there is one.
fn condition_value(alloc: Global, condition: &Option<Expr>) -> Result<Option<Json>, NoMemory>
    ensures { IfOk result (λ o. option_map data_of o ≡ option_map expr_json condition.now) }
{
    match condition {
        Some(expr) => Ok(Some(expr_value(alloc, expr)?)),
        None => Ok(None),
    }
}

/// What the document says of a branch where no condition holds, where it says that.
fn branch_error_value(alloc: Global, error: &Option<Text>) -> Result<Option<Json>, NoMemory>
    ensures { IfOk result (λ o. option_map data_of o ≡ option_map branch_error_json error.now) }
{
    let Some(text) = error else {
        return Ok(None);
    };
    let mut message = Message::new(alloc);
    message.optional_text("message", text.as_str())?;
    Ok(Some(message.into_json()))
}

fn branch_value(
    alloc: Global,
    first: Option<Json>,
    others: Option<Json>,
    otherwise: Option<Json>,
    error: Option<Json>,
) -> Result<Json, NoMemory>
    ensures { IfOk result (λ j. data_of j ≡ message_of_one (codes "ifElse") (message (
        (codes "case", option_map data_of first) ∷ (codes "other", option_map data_of others)
        ∷ (codes "elseNode", option_map data_of otherwise) ∷ (codes "error", option_map data_of error) ∷ []))) }
{
    let mut message = Message::new(alloc);
    message.add("case", first)?;
    message.add("other", others)?;
    message.add("elseNode", otherwise)?;
    message.add("error", error)?;
    message_of(alloc, "ifElse", message.into_json())
}

/// The JSON of a node.
#[cycle(node_value)]
#[tactic(auto, using(std::proofs::lemmas::Grind::common_steps, crate::proofs::NodeLayers::node_json_is))]
pub fn node_value(alloc: Global, node: &Node) -> Result<Json, NoMemory>
    ensures { IfOk result (λ j. data_of j ≡ node_json node.now) }
{
    let mut message = Message::new(alloc);
    message.text("id", node.id.as_str())?;
    message.add(
        "metadata",
        metadata_value(alloc, node.timeout_ms, node.retries)?,
    )?;
    message.add("inputs", bindings_value(alloc, node.inputs.as_slice())?)?;
    message.add(
        "upstreamNodeIds",
        texts_value(alloc, node.upstream.as_slice())?,
    )?;
    add_target(&mut message, alloc, &node.target)?;
    Ok(message.into_json())
}

/// Adds what a node stands for to the node.
#[cycle(node_value)]
#[tactic(auto, using(std::proofs::lemmas::Grind::common_steps, crate::proofs::NodeLayers::target_variants))]
fn add_target(message: &mut Message, alloc: Global, target: &Target) -> Result<(), NoMemory>
    ensures { OnOk result (members_of message.new ≡ with_fields (members_of message.old) (target_fields target.now)) }
{
    match target {
        Target::Task(task) => message.put("taskNode", task_node_value(alloc, task)?),
        Target::Workflow(workflow) => {
            message.put("workflowNode", workflow_node_value(alloc, workflow)?)
        }
        Target::Branch {
            cases,
            otherwise,
            error,
        } => {
            let first = first_case_value(alloc, cases.as_slice())?;
            let others = other_cases_value(alloc, cases.as_slice())?;
            let otherwise = otherwise_value(alloc, otherwise)?;
            let error = branch_error_value(alloc, error)?;
            message.put(
                "branchNode",
                branch_value(alloc, first, others, otherwise, error)?,
            )
        }
        Target::Array {
            task,
            min_successes,
        } => message.put("arrayNode", array_node_value(alloc, task, *min_successes)?),
    }
}

#[cycle(node_value)]
#[tactic(auto, using(std::proofs::lemmas::Grind::common_steps, crate::proofs::NodeLayers::case_json_is))]
fn case_value(alloc: Global, case: &Case) -> Result<Json, NoMemory>
    ensures { IfOk result (λ j. data_of j ≡ case_json case.now) }
{
    let mut message = Message::new(alloc);
    message.add("condition", condition_value(alloc, &case.condition)?)?;
    message.put("thenNode", node_value(alloc, &case.then)?)?;
    Ok(message.into_json())
}

#[cycle(node_value)]
fn first_case_value(alloc: Global, cases: &[Case]) -> Result<Option<Json>, NoMemory>
    ensures { IfOk result (λ o. option_map data_of o ≡ slice_get (map case_json cases.now) 0) }
{
    match cases {
        [first, ..] => Ok(Some(case_value(alloc, first)?)),
        [] => Ok(None),
    }
}

#[cycle(node_value)]
fn other_cases_value(alloc: Global, cases: &[Case]) -> Result<Option<Json>, NoMemory>
    ensures { IfOk result (λ o. option_map data_of o ≡ optional_list (drop 1 (map case_json cases.now))) }
{
    let mut values = Elements::with_capacity(alloc, cases.len())?;
    for (i, case) in cases.iter().enumerate() {
        if i > 0 {
            values.push(case_value(alloc, case)?)?;
        }
    }
    Ok(values.into_optional())
}

#[cycle(node_value)]
fn otherwise_value(alloc: Global, otherwise: &Option<Boxed<Node>>) -> Result<Option<Json>, NoMemory>
    ensures { IfOk result (λ o. option_map data_of o ≡ option_map node_json otherwise.now) }
{
    match otherwise {
        Some(node) => Ok(Some(node_value(alloc, node.get())?)),
        None => Ok(None),
    }
}

/// Nodes as a list, which is left out where it is empty.
pub fn nodes_value(alloc: Global, nodes: &[Node]) -> Result<Option<Json>, NoMemory>
    ensures { IfOk result (λ o. option_map data_of o ≡ optional_list (map node_json nodes.now)) }
{
    let mut values = Elements::with_capacity(alloc, nodes.len())?;
    for node in nodes {
        values.push(node_value(alloc, node)?)?;
    }
    Ok(values.into_optional())
}
