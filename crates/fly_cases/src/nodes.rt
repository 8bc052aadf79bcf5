use crate::bounds::bindings;
use crate::bundle::{boxed, count, identifier, listed, retries, text, texts};
use crate::calls::text_under;
use crate::conditions::condition;
use anyhow::{Context, Result, bail};
use fly_docs::{Case, Node, Target};
use fly_exprs::Expr;
use fly_types::{List, Text};
use serde_json::Value;
use std::alloc::Global;

/// How deep branches may lie in each other.
const DEPTH: usize = 8;

/// The nodes of a workflow. One with `times` stands so many times, with its number behind its id.
pub fn nodes(alloc: Global, form: &Value) -> Result<List<Node>> {
    let mut all = Vec::new(alloc);
    for form in listed(form, "nodes") {
        let id = text_under(form, "id")?;
        match form.get("times").and_then(Value::as_u64) {
            Some(times) => {
                for number in 0..times {
                    let id = Text::from_string(format!(in alloc; "{id}{number}")?);
                    all.push(node(alloc, DEPTH, form, id)?)?;
                }
            }
            None => all.push(node(alloc, DEPTH, form, text(alloc, id)?)?)?,
        }
    }
    Ok(List::from_vec(all))
}

/// The node that a form is, with this id.
#[cycle(nodes)]
fn node(alloc: Global, depth: usize, form: &Value, id: Text) -> Result<Node> {
    Ok(Node {
        id,
        timeout_ms: 0,
        retries: retries(form)?,
        inputs: bindings(alloc, form, "inputs")?,
        upstream: texts(alloc, form, "upstream")?,
        target: target(alloc, depth, form)?,
    })
}

#[cycle(nodes)]
fn target(alloc: Global, depth: usize, form: &Value) -> Result<Target> {
    if let Some(name) = form.get("task").and_then(Value::as_str) {
        return Ok(Target::Task(identifier(alloc, name)?));
    }
    if let Some(name) = form.get("workflow").and_then(Value::as_str) {
        return Ok(Target::Workflow(identifier(alloc, name)?));
    }
    if let Some(name) = form.get("array").and_then(Value::as_str) {
        return array(alloc, name, form.get("minSuccesses"));
    }
    if depth == 0 {
        bail!("branches that are too deep");
    }
    branch(alloc, depth - 1, form)
}

fn array(alloc: Global, task: &str, min_successes: Option<&Value>) -> Result<Target> {
    let min_successes = match min_successes {
        Some(form) => Some(count(form)?),
        None => None,
    };
    Ok(Target::Array {
        task: identifier(alloc, task)?,
        min_successes,
    })
}

#[cycle(nodes)]
fn branch(alloc: Global, depth: usize, form: &Value) -> Result<Target> {
    let mut cases = Vec::new(alloc);
    for case in listed(form, "cases") {
        cases.push(Case {
            condition: condition_of(alloc, case.get(0).context("a case without a condition")?)?,
            then: inner_node(alloc, depth, case.get(1).context("a case without a node")?)?,
        })?;
    }
    let otherwise = match form.get("else") {
        Some(form) => Some(boxed(alloc, inner_node(alloc, depth, form)?)?),
        None => None,
    };
    let error = match form.get("error").and_then(Value::as_str) {
        Some(message) => Some(text(alloc, message)?),
        None => None,
    };
    Ok(Target::Branch {
        cases: List::from_vec(cases),
        otherwise,
        error,
    })
}

/// A node of a branch.
#[cycle(nodes)]
fn inner_node(alloc: Global, depth: usize, form: &Value) -> Result<Node> {
    let id = text(alloc, text_under(form, "id")?)?;
    node(alloc, depth, form, id)
}

/// None where there is null.
fn condition_of(alloc: Global, form: &Value) -> Result<Option<Expr>> {
    if form.is_null() {
        return Ok(None);
    }
    Ok(Some(condition(alloc, form)?))
}
