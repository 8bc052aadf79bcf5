ghost use Rattle.std.specs.Prelude.{◌≡◌, slice_get, IfOk};
ghost use Rattle.std.specs.Result.{result_err};
ghost use Rattle.fly_types.specs.Lookup.{value_of};
ghost use Rattle.fly_exprs.specs.Faults.{operand_faults, operand_type, is_order, type_faults, comparison_faults, faults_of};

use crate::lookup::find_type;
use crate::{Comparison, Expr, Operand};
use fly_types::{List, Simple, Text, simple_type};

/// What is wrong with an expression, as the compiler reports it of a branch's case.
#[derive(Clone, Copy, Debug, PartialEq, Eq)]
pub enum ExprFault {
    /// A name that no variable of the branch has.
    UnknownVar,
    /// Two operands that are not of one primitive type.
    MixedTypes,
    /// GT, GTE, LT or LTE on truth values.
    OrderOnBoolean,
}

/// The first fault in the order of the text, over variables with their types. Where a name stands twice among the
/// variables, the first counts. Takes no memory.
pub fn expr_fault(e: &Expr, vars: &List<(Text, Simple)>) -> Option<ExprFault>
    ensures { result ≡ slice_get (faults_of (value_of vars.now) e.now) 0 }
{
    check_expr(e, vars.as_slice()).err()
}

fn check_expr(e: &Expr, vars: &[(Text, Simple)]) -> Result<(), ExprFault>
    ensures { result_err result ≡ slice_get (faults_of (value_of vars.now) e.now) 0 }
{
    match e {
        Expr::Compare(comparison, left, right) => check_comparison(*comparison, left, right, vars),
        Expr::Join(_, left, right) => {
            check_expr(left.get(), vars)?;
            check_expr(right.get(), vars)
        }
    }
}

fn check_comparison(
    comparison: Comparison,
    left: &Operand,
    right: &Operand,
    vars: &[(Text, Simple)],
) -> Result<(), ExprFault>
    ensures { result_err result ≡ slice_get (comparison_faults (value_of vars.now) comparison left.now right.now) 0 }
{
    let left = known_type(left, vars)?;
    let right = known_type(right, vars)?;
    check_types(comparison, left, right)
}

/// The simple type of an operand. None for a value that has no simple type.
fn known_type(operand: &Operand, vars: &[(Text, Simple)]) -> Result<Option<Simple>, ExprFault>
    ensures fault { result_err result ≡ slice_get (operand_faults (value_of vars.now) operand.now) 0 }
    ensures known { IfOk result (λ kind. kind ≡ operand_type (value_of vars.now) operand.now) }
{
    match operand {
        Operand::Value(literal) => Ok(simple_type(literal)),
        Operand::Var(name) => match find_type(vars, name) {
            Some(kind) => Ok(Some(*kind)),
            None => Err(ExprFault::UnknownVar),
        },
    }
}

fn check_types(
    comparison: Comparison,
    left: Option<Simple>,
    right: Option<Simple>,
) -> Result<(), ExprFault>
    ensures { result_err result ≡ slice_get (type_faults comparison left right) 0 }
{
    if left != right {
        return Err(ExprFault::MixedTypes);
    }
    match left {
        Some(Simple::Boolean) if comparison.is_order() => Err(ExprFault::OrderOnBoolean),
        Some(
            Simple::Integer | Simple::Text | Simple::Boolean | Simple::Datetime | Simple::Duration,
        ) => Ok(()),
        _ => Err(ExprFault::MixedTypes),
    }
}

impl Comparison {
    fn is_order(self) -> bool
        ensures { result ≡ is_order self }
    {
        !matches!(self, Comparison::Eq | Comparison::Neq)
    }
}
