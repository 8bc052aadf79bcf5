use crate::bounds::bindings;
use crate::calls::text_under;
use crate::case::wants_memory;
use crate::messages::type_under;
use crate::nodes::nodes;
use anyhow::{Context, Result};
use fly_docs::{Bundle, Identifier, Interface, Task, Workflow};
use fly_types::{Boxed, List, LiteralType, Text, Variable};
use serde_json::{Value, json};
use std::alloc::Global;

/// The bundle that a form is.
pub fn bundle(alloc: Global, form: &Value) -> Result<Bundle> {
    let mut tasks = Vec::new(alloc);
    for form in listed(form, "tasks") {
        tasks.push(task(alloc, form)?)?;
    }
    let mut workflows = Vec::new(alloc);
    for form in listed(form, "workflows") {
        workflows.push(workflow(alloc, form)?)?;
    }
    Ok(Bundle {
        tasks: List::from_vec(tasks),
        workflows: List::from_vec(workflows),
        primary: identifier(alloc, text_under(form, "primary")?)?,
    })
}

fn task(alloc: Global, form: &Value) -> Result<Task> {
    Ok(Task {
        id: identifier(alloc, text_under(form, "id")?)?,
        cached: false,
        serializable: false,
        cache_version: text(alloc, "")?,
        timeout_ms: 0,
        retries: retries(form)?,
        interface: interface(alloc, form)?,
        command: texts(alloc, form, "command")?,
        args: texts(alloc, form, "args")?,
    })
}

fn workflow(alloc: Global, form: &Value) -> Result<Workflow> {
    Ok(Workflow {
        id: identifier(alloc, text_under(form, "id")?)?,
        fail_late: false,
        interface: interface(alloc, form)?,
        nodes: nodes(alloc, form)?,
        outputs: bindings(alloc, form, "outputs")?,
    })
}

fn interface(alloc: Global, form: &Value) -> Result<Interface> {
    Ok(Interface {
        inputs: variables(alloc, form, "takes")?,
        outputs: variables(alloc, form, "gives")?,
    })
}

fn variables(alloc: Global, form: &Value, key: &str) -> Result<List<Variable>> {
    let mut all = Vec::new(alloc);
    for variable in listed(form, key) {
        let (name, kind) = pair(variable)?;
        all.push(Variable {
            name: text(alloc, name)?,
            kind: variable_type(alloc, kind)?,
        })?;
    }
    Ok(List::from_vec(all))
}

/// The simple type of a name, or the type that a `LiteralType` in JSON is.
fn variable_type(alloc: Global, kind: &Value) -> Result<LiteralType> {
    match kind.as_str() {
        Some(name) => type_under(alloc, Some(&json!(in alloc; {"simple": name})?)),
        None => type_under(alloc, Some(kind)),
    }
}

/// The identifier with the name: the rest is the same in all.
pub fn identifier(alloc: Global, name: &str) -> Result<Identifier> {
    Ok(Identifier {
        project: text(alloc, "p")?,
        domain: text(alloc, "d")?,
        name: text(alloc, name)?,
        version: text(alloc, "1")?,
    })
}

/// How many attempts may follow the first.
pub fn retries(form: &Value) -> Result<u32> {
    match form.get("retries") {
        Some(retries) => count(retries),
        None => Ok(0),
    }
}

/// A number of 32 bits.
pub fn count(form: &Value) -> Result<u32> {
    let number = form.as_u64().context("a count that is no number")?;
    u32::try_from(number).context("a count that is too large")
}

/// A text of a document.
pub fn text(alloc: Global, text: &str) -> Result<Text> {
    Text::from_str(alloc, text).map_err(wants_memory)
}

/// A value in a box of its own.
pub fn boxed<T: Drop>(alloc: Global, value: T) -> Result<Boxed<T>> {
    Boxed::new(alloc, value).map_err(wants_memory)
}

/// The texts that a form lists under a key.
pub fn texts(alloc: Global, form: &Value, key: &str) -> Result<List<Text>> {
    let mut all = Vec::new(alloc);
    for word in listed(form, key) {
        all.push(text(alloc, word.as_str().context("a text")?)?)?;
    }
    Ok(List::from_vec(all))
}

/// What a form lists under a key: nothing where it does not have the key.
pub fn listed<'a>(form: &'a Value, key: &str) -> &'a [Value] {
    match form.get(key).and_then(Value::as_array) {
        Some(list) => list.as_slice(),
        None => &[],
    }
}

/// A name, and what stands beside it.
pub fn pair(form: &Value) -> Result<(&str, &Value)> {
    let name = form
        .get(0)
        .and_then(Value::as_str)
        .context("a pair without a name")?;
    let value = form.get(1).context("a pair of one element")?;
    Ok((name, value))
}
