ghost use Rattle.std.specs.Prelude.{◌≡◌, IfOk, option_map};
ghost use Rattle.fly_writers.specs.Json.{message};
ghost use Rattle.fly_writers.specs.Built.{data_of};
ghost use Rattle.fly_writers.specs.Conditions.{comparison_name as comparison_data, conjunction_name as conjunction_data, operand_json, comparison_fields, conjunction_fields, expr_json};

use crate::json::{Json, Message};
use crate::literals::primitive_value;
use crate::message::message_of;
use fly_exprs::{Comparison, Conjunction, Expr, Operand};
use fly_types::NoMemory;
use std::alloc::Global;

/// The name of an operator, but for the first, which is left out.
fn comparison_name(alloc: Global, comparison: Comparison) -> Result<Option<Json>, NoMemory>
    ensures { IfOk result (λ o. option_map data_of o ≡ comparison_data comparison) }
{
    match comparison {
        Comparison::Eq => Ok(None),
        Comparison::Neq => Ok(Some(Json::text(alloc, "NEQ")?)),
        Comparison::Gt => Ok(Some(Json::text(alloc, "GT")?)),
        Comparison::Gte => Ok(Some(Json::text(alloc, "GTE")?)),
        Comparison::Lt => Ok(Some(Json::text(alloc, "LT")?)),
        Comparison::Lte => Ok(Some(Json::text(alloc, "LTE")?)),
    }
}

fn conjunction_name(alloc: Global, conjunction: Conjunction) -> Result<Option<Json>, NoMemory>
    ensures { IfOk result (λ o. option_map data_of o ≡ conjunction_data conjunction) }
{
    match conjunction {
        Conjunction::And => Ok(None),
        Conjunction::Or => Ok(Some(Json::text(alloc, "OR")?)),
    }
}

fn operand_value(alloc: Global, operand: &Operand) -> Result<Json, NoMemory>
    ensures { IfOk result (λ j. data_of j ≡ operand_json operand.now) }
{
    match operand {
        Operand::Value(literal) => {
            let primitive = primitive_value(alloc, literal)?;
            message_of(alloc, "primitive", primitive)
        }
        Operand::Var(name) => {
            let name = Json::text(alloc, name.as_str())?;
            message_of(alloc, "var", name)
        }
    }
}

fn comparison_value(
    alloc: Global,
    comparison: Comparison,
    left: &Operand,
    right: &Operand,
) -> Result<Json, NoMemory>
    ensures { IfOk result (λ j. data_of j ≡ message (comparison_fields comparison left.now right.now)) }
{
    let mut message = Message::new(alloc);
    message.add("operator", comparison_name(alloc, comparison)?)?;
    message.put("leftValue", operand_value(alloc, left)?)?;
    message.put("rightValue", operand_value(alloc, right)?)?;
    Ok(message.into_json())
}

fn conjunction_value(
    alloc: Global,
    conjunction: Conjunction,
    left: Json,
    right: Json,
) -> Result<Json, NoMemory>
    ensures { IfOk result (λ j. data_of j ≡ message (conjunction_fields conjunction (data_of left) (data_of right))) }
{
    let mut message = Message::new(alloc);
    message.add("operator", conjunction_name(alloc, conjunction)?)?;
    message.put("leftExpression", left)?;
    message.put("rightExpression", right)?;
    Ok(message.into_json())
}

/// The JSON of a condition.
#[tactic(auto, using(std::proofs::lemmas::Grind::common_steps, crate::proofs::Layers::expr_variants))]
pub fn expr_value(alloc: Global, expr: &Expr) -> Result<Json, NoMemory>
    ensures { IfOk result (λ j. data_of j ≡ expr_json expr.now) }
{
    match expr {
        Expr::Compare(comparison, left, right) => {
            let comparison = comparison_value(alloc, *comparison, left, right)?;
            message_of(alloc, "comparison", comparison)
        }
        Expr::Join(conjunction, left, right) => {
            let left = expr_value(alloc, left.get())?;
            let right = expr_value(alloc, right.get())?;
            let conjunction = conjunction_value(alloc, *conjunction, left, right)?;
            message_of(alloc, "conjunction", conjunction)
        }
    }
}
