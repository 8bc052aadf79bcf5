use crate::bounds::literal;
use crate::bundle::{boxed, text};
use anyhow::{Context, Result, bail};
use fly_exprs::{Comparison, Conjunction, Expr, Operand};
use serde_json::Value;
use std::alloc::Global;

/// How deep conjunctions may lie in each other.
const DEPTH: usize = 16;

/// The expression that a form is.
pub fn condition(alloc: Global, form: &Value) -> Result<Expr> {
    expression(alloc, DEPTH, form)
}

fn expression(alloc: Global, depth: usize, form: &Value) -> Result<Expr> {
    if depth == 0 {
        bail!("an expression that is too deep");
    }
    let left = form.get(0).context("an expression without a left side")?;
    let operator = form
        .get(1)
        .and_then(Value::as_str)
        .context("an expression without an operator")?;
    let right = form.get(2).context("an expression without a right side")?;
    let Some(conjunction) = conjunction(operator) else {
        let comparison = comparison(operator).context("an operator of no name")?;
        let left = operand(alloc, left)?;
        return Ok(Expr::Compare(comparison, left, operand(alloc, right)?));
    };
    let left = boxed(alloc, expression(alloc, depth - 1, left)?)?;
    let right = boxed(alloc, expression(alloc, depth - 1, right)?)?;
    Ok(Expr::Join(conjunction, left, right))
}

/// A text is the name of an input, and all else a value.
fn operand(alloc: Global, form: &Value) -> Result<Operand> {
    match form.as_str() {
        Some(name) => Ok(Operand::Var(text(alloc, name)?)),
        None => Ok(Operand::Value(literal(alloc, form)?)),
    }
}

fn conjunction(operator: &str) -> Option<Conjunction> {
    match operator {
        "AND" => Some(Conjunction::And),
        "OR" => Some(Conjunction::Or),
        _ => None,
    }
}

fn comparison(operator: &str) -> Option<Comparison> {
    match operator {
        "EQ" => Some(Comparison::Eq),
        "NEQ" => Some(Comparison::Neq),
        "GT" => Some(Comparison::Gt),
        "GTE" => Some(Comparison::Gte),
        "LT" => Some(Comparison::Lt),
        "LTE" => Some(Comparison::Lte),
        _ => None,
    }
}
