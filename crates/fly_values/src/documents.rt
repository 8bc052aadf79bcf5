ghost use Rattle.std.specs.Prelude.{◌≡◌, ◌≤◌, IfOk, codes};
ghost use Rattle.serde_json.specs.View.{view};
ghost use Rattle.fly_docs.specs.Form.{most_retries};
ghost use Rattle.fly_values.specs.Fields.{members_in, field, text_value, truth_value};
ghost use Rattle.fly_values.specs.Scalars.{timeout_value};
ghost use Rattle.fly_values.specs.Documents.{identifier_value, retries_value, task_node_value, fail_late_value, bundle_value, submissions_value, container_error_value, error_document_value};

use crate::fields::{fields_of, is_called, take, text_from, truth_from};
use crate::interfaces::interface_from;
use crate::lists::{FromJson, list_from};
use crate::literals::literal_map_from;
use crate::scalars::{timeout_from, whole_from};
use fly_docs::{Bundle, Identifier, Node, Submission, Target, Task, Workflow};
use fly_types::{List, NoMemory, Said, Text};
use serde_json::Value;
use std::alloc::Global;

/// How many attempts may follow the first at most.
const MOST_RETRIES: u32 = 10;

#[tactic(auto, unfolding(crate::specs::Documents::identifier_value))]
fn identifier_from(alloc: Global, value: Value) -> Identifier
    ensures { result ≡ identifier_value (view value) }
{
    let mut fields = fields_of(alloc, value);
    Identifier {
        project: text_from(alloc, take(&mut fields, "project", "project")),
        domain: text_from(alloc, take(&mut fields, "domain", "domain")),
        name: text_from(alloc, take(&mut fields, "name", "name")),
        version: text_from(alloc, take(&mut fields, "version", "version")),
    }
}

/// A `RetryStrategy`.
#[tactic(auto, unfolding(crate::specs::Documents::retries_value))]
fn retries_from(alloc: Global, value: Value) -> u32
    ensures value { result ≡ retries_value (view value) }
    ensures bound { result ≤ most_retries }
{
    let mut fields = fields_of(alloc, value);
    whole_from(MOST_RETRIES, &take(&mut fields, "retries", "retries"))
}

/// What a `TaskMetadata` says.
#[derive(Drop)]
struct TaskSettings {
    cached: bool,
    serializable: bool,
    cache_version: Text,
    timeout_ms: u64,
    retries: u32,
}

fn task_settings_from(alloc: Global, value: Value) -> TaskSettings
    ensures cached { result.cached ≡ truth_value (field (codes "discoverable") (members_in (view value))) }
    ensures serializable { result.serializable
        ≡ truth_value (field (codes "cacheSerializable") (members_in (view value))) }
    ensures version { result.cache_version
        ≡ text_value (field (codes "discoveryVersion") (members_in (view value))) }
    ensures timeout { result.timeout_ms ≡ timeout_value (field (codes "timeout") (members_in (view value))) }
    ensures retries { result.retries ≡ retries_value (field (codes "retries") (members_in (view value))) }
    ensures bound { result.retries ≤ most_retries }
{
    let mut fields = fields_of(alloc, value);
    let version = take(&mut fields, "discoveryVersion", "discovery_version");
    let serializable = take(&mut fields, "cacheSerializable", "cache_serializable");
    TaskSettings {
        cached: truth_from(take(&mut fields, "discoverable", "discoverable")),
        serializable: truth_from(serializable),
        cache_version: text_from(alloc, version),
        timeout_ms: timeout_from(&take(&mut fields, "timeout", "timeout")),
        retries: retries_from(alloc, take(&mut fields, "retries", "retries")),
    }
}

impl FromJson for Task {
    ghost use Rattle.fly_values.specs.Documents.{task_value};

    ghost of = { task_value };

    #[tactic(auto, unfolding(crate::specs::Documents::task_value))]
    fn from_json(alloc: Global, value: Value) -> Result<Task, NoMemory> {
        let mut fields = fields_of(alloc, value);
        let settings = task_settings_from(alloc, take(&mut fields, "metadata", "metadata"));
        let mut container = fields_of(alloc, take(&mut fields, "container", "container"));
        Ok(Task {
            id: identifier_from(alloc, take(&mut fields, "id", "id")),
            cached: settings.cached,
            serializable: settings.serializable,
            cache_version: settings.cache_version,
            timeout_ms: settings.timeout_ms,
            retries: settings.retries,
            interface: interface_from(alloc, take(&mut fields, "interface", "interface"))?,
            command: list_from(alloc, take(&mut container, "command", "command"))?,
            args: list_from(alloc, take(&mut container, "args", "args"))?,
        })
    }
}

/// A `TaskNode`.
#[tactic(auto, unfolding(crate::specs::Documents::task_node_value))]
fn task_node_from(alloc: Global, value: Value) -> Target
    ensures { result ≡ task_node_value (view value) }
{
    let mut fields = fields_of(alloc, value);
    Target::Task(identifier_from(alloc, take(&mut fields, "referenceId", "reference_id")))
}

impl FromJson for Node {
    ghost use Rattle.fly_values.specs.Documents.{node_value};

    ghost of = { node_value };

    #[tactic(auto, unfolding(crate::specs::Documents::node_value))]
    fn from_json(alloc: Global, value: Value) -> Result<Node, NoMemory> {
        let mut fields = fields_of(alloc, value);
        let mut metadata = fields_of(alloc, take(&mut fields, "metadata", "metadata"));
        let upstream = take(&mut fields, "upstreamNodeIds", "upstream_node_ids");
        Ok(Node {
            id: text_from(alloc, take(&mut fields, "id", "id")),
            timeout_ms: timeout_from(&take(&mut metadata, "timeout", "timeout")),
            retries: retries_from(alloc, take(&mut metadata, "retries", "retries")),
            inputs: list_from(alloc, take(&mut fields, "inputs", "inputs"))?,
            upstream: list_from(alloc, upstream)?,
            target: task_node_from(alloc, take(&mut fields, "taskNode", "task_node")),
        })
    }
}

/// The failure policy of a `WorkflowMetadata`.
#[tactic(auto, unfolding(crate::specs::Documents::fail_late_value))]
fn fail_late_from(alloc: Global, value: Value) -> bool
    ensures { result ≡ fail_late_value (view value) }
{
    let mut fields = fields_of(alloc, value);
    let policy = take(&mut fields, "onFailure", "on_failure");
    is_called(&policy, "FAIL_AFTER_EXECUTABLE_NODES_COMPLETE", 1)
}

impl FromJson for Workflow {
    ghost use Rattle.fly_values.specs.Documents.{workflow_value};

    ghost of = { workflow_value };

    #[tactic(auto, unfolding(crate::specs::Documents::workflow_value))]
    fn from_json(alloc: Global, value: Value) -> Result<Workflow, NoMemory> {
        let mut fields = fields_of(alloc, value);
        Ok(Workflow {
            id: identifier_from(alloc, take(&mut fields, "id", "id")),
            fail_late: fail_late_from(alloc, take(&mut fields, "metadata", "metadata")),
            interface: interface_from(alloc, take(&mut fields, "interface", "interface"))?,
            nodes: list_from(alloc, take(&mut fields, "nodes", "nodes"))?,
            outputs: list_from(alloc, take(&mut fields, "outputs", "outputs"))?,
        })
    }
}

/// The bundle that a JSON value stands for. What is absent or has another form is at its default.
#[tactic(auto, unfolding(crate::specs::Documents::bundle_value))]
pub fn bundle_from(alloc: Global, value: Value) -> Result<Bundle, NoMemory>
    ensures { IfOk result (λ b. b ≡ bundle_value (view value)) }
{
    let mut fields = fields_of(alloc, value);
    Ok(Bundle {
        tasks: list_from(alloc, take(&mut fields, "tasks", "tasks"))?,
        workflows: list_from(alloc, take(&mut fields, "workflows", "workflows"))?,
        primary: identifier_from(alloc, take(&mut fields, "primary", "primary")),
    })
}

impl FromJson for Submission {
    ghost use Rattle.fly_values.specs.Documents.{submission_value};

    ghost of = { submission_value };

    #[tactic(auto, unfolding(crate::specs::Documents::submission_value))]
    fn from_json(alloc: Global, value: Value) -> Result<Submission, NoMemory> {
        let mut fields = fields_of(alloc, value);
        Ok(Submission {
            name: text_from(alloc, take(&mut fields, "name", "name")),
            inputs: literal_map_from(alloc, take(&mut fields, "inputs", "inputs"))?,
        })
    }
}

/// The submissions that a JSON list stands for.
pub fn submissions_from(alloc: Global, value: Value) -> Result<List<Submission>, NoMemory>
    ensures { IfOk result (λ s. s ≡ submissions_value (view value)) }
{
    list_from(alloc, value)
}

#[tactic(auto, unfolding(crate::specs::Documents::container_error_value))]
fn container_error_from(alloc: Global, value: Value) -> Said
    ensures { result ≡ container_error_value (view value) }
{
    let mut fields = fields_of(alloc, value);
    let kind = take(&mut fields, "kind", "kind");
    Said::Error {
        code: text_from(alloc, take(&mut fields, "code", "code")),
        message: text_from(alloc, take(&mut fields, "message", "message")),
        recoverable: is_called(&kind, "RECOVERABLE", 1),
    }
}

/// The error that an `ErrorDocument` stands for.
#[tactic(auto, unfolding(crate::specs::Documents::error_document_value))]
pub fn error_document_from(alloc: Global, value: Value) -> Said
    ensures { result ≡ error_document_value (view value) }
{
    let mut fields = fields_of(alloc, value);
    container_error_from(alloc, take(&mut fields, "error", "error"))
}
