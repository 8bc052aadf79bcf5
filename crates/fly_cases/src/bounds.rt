use crate::bundle::{listed, pair, text};
use crate::messages::literal_under;
use anyhow::{Context, Result, bail};
use fly_docs::{Binding, Bound};
use fly_types::{List, Literal, Text};
use serde_json::Value;
use std::alloc::Global;

/// How deep collections and maps may lie in each other.
const DEPTH: usize = 16;

/// The bindings that a form lists under a key, each a name beside what is bound to it.
pub fn bindings(alloc: Global, form: &Value, key: &str) -> Result<List<Binding>> {
    let mut all = Vec::new(alloc);
    for binding in listed(form, key) {
        let (name, form) = pair(binding)?;
        all.push(Binding {
            var: text(alloc, name)?,
            bound: bound(alloc, DEPTH, form)?,
        })?;
    }
    Ok(List::from_vec(all))
}

#[cycle(bounds)]
fn bound(alloc: Global, depth: usize, form: &Value) -> Result<Bound> {
    if let Some(promise) = form.as_str() {
        return promised(alloc, promise);
    }
    if depth == 0 {
        bail!("a binding that is too deep");
    }
    if let Some(elements) = form.as_array() {
        return collection(alloc, depth - 1, elements);
    }
    if let Some(pairs) = form.get("map").and_then(Value::as_array) {
        return map(alloc, depth - 1, pairs);
    }
    Ok(Bound::Scalar(literal(alloc, form)?))
}

#[cycle(bounds)]
fn collection(alloc: Global, depth: usize, elements: &[Value]) -> Result<Bound> {
    let mut all = Vec::new(alloc);
    for element in elements {
        all.push(bound(alloc, depth, element)?)?;
    }
    Ok(Bound::Collection(List::from_vec(all)))
}

#[cycle(bounds)]
fn map(alloc: Global, depth: usize, pairs: &[Value]) -> Result<Bound> {
    let mut all = Vec::new(alloc);
    for entry in pairs {
        let (name, value) = pair(entry)?;
        all.push((text(alloc, name)?, bound(alloc, depth, value)?))?;
    }
    Ok(Bound::Map(List::from_vec(all)))
}

/// A promise, as the id of its node, a point, and the name of the output.
fn promised(alloc: Global, promise: &str) -> Result<Bound> {
    let (node, var) = promise
        .split_once('.')
        .context("a promise without a point")?;
    Ok(Bound::Promise {
        node: text(alloc, node)?,
        var: text(alloc, var)?,
    })
}

/// A number or a truth value; a text under `text`; or under `literal` any literal.
pub fn literal(alloc: Global, form: &Value) -> Result<Literal> {
    if let Some(whole) = form.as_i64() {
        return Ok(Literal::Integer(whole));
    }
    if let Some(truth) = form.as_bool() {
        return Ok(Literal::Boolean(truth));
    }
    if let Some(value) = form.get("text").and_then(Value::as_str) {
        return Ok(Literal::Text(text(alloc, value)?));
    }
    literal_under(alloc, form.get("literal"))
}
