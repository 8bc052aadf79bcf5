//! The form of the conditions of a branch's cases.
ghost use Rattle.std.specs.Prelude.{◌≡◌, ◌↔◌, IfSome, IsTrue};
ghost use Rattle.fly_types.specs.declared.literals.Literal.{out-Literal};
ghost use Rattle.fly_docs.specs.Form.{IsPrimitive, IsOperandInForm, IsExprInForm};

use fly_exprs::{Expr, Operand};
use fly_types::Literal;

pub(crate) fn is_condition_in_form(condition: &Option<Expr>) -> bool
    ensures { IsTrue result ↔ IfSome condition.now IsExprInForm }
{
    match condition {
        Some(expr) => is_expr_in_form(expr),
        None => true,
    }
}

fn is_expr_in_form(expr: &Expr) -> bool
    ensures { IsTrue result ↔ IsExprInForm expr.now }
{
    match expr {
        Expr::Compare(_, left, right) => is_operand_in_form(left) && is_operand_in_form(right),
        Expr::Join(_, left, right) => is_expr_in_form(left.get()) && is_expr_in_form(right.get()),
    }
}

fn is_operand_in_form(operand: &Operand) -> bool
    ensures { IsTrue result ↔ IsOperandInForm operand.now }
{
    match operand {
        Operand::Value(literal) => is_primitive(literal),
        Operand::Var(_) => true,
    }
}

fn is_primitive(literal: &Literal) -> bool
    ensures { IsTrue result ↔ IsPrimitive (out-Literal literal.now) }
{
    matches!(
        literal,
        Literal::Integer(_)
            | Literal::Text(_)
            | Literal::Boolean(_)
            | Literal::Datetime { .. }
            | Literal::Duration { .. }
    )
}
