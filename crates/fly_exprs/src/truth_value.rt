ghost use Rattle.std.specs.Prelude.{◌≡◌, [], Some};
ghost use Rattle.fly_types.specs.declared.literals.Literal.{out-Literal};
ghost use Rattle.fly_types.specs.Sound.{AreNamesSorted};
ghost use Rattle.fly_exprs.specs.Faults.{literal_types, operand_faults, faults_of};
ghost use Rattle.fly_exprs.specs.TruthValue.{nanoseconds, order_of, admits, operand_value, truth_of};

use crate::{Comparison, Conjunction, Expr, Operand};
use fly_types::{Literal, LiteralMap};
use std::cmp::Ordering;

const NANOS_PER_SECOND: i128 = 1_000_000_000;

/// Whether the expression is true, over the values of its variables. Takes no memory.
pub fn truth(e: &Expr, inputs: &LiteralMap) -> bool
    requires sorted { AreNamesSorted inputs.now.entries }
    requires faultless { faults_of (literal_types inputs.now) e.now ≡ [] }
    ensures { result ≡ truth_of inputs.now e.now }
{
    match e {
        Expr::Compare(comparison, left, right) => {
            let order = order(value(left, inputs), value(right, inputs)).unwrap();
            comparison.admits(order)
        }
        Expr::Join(conjunction, left, right) => {
            let left = truth(left.get(), inputs);
            let right = truth(right.get(), inputs);
            match conjunction {
                Conjunction::And => left && right,
                Conjunction::Or => left || right,
            }
        }
    }
}

/// The literal of an operand, for a variable that under its name.
fn value<'a>(operand: &'a Operand, inputs: &'a LiteralMap) -> &'a Literal
    requires sorted { AreNamesSorted inputs.now.entries }
    requires faultless { operand_faults (literal_types inputs.now) operand.now ≡ [] }
    ensures { operand_value inputs.now operand.now ≡ Some result.now }
{
    match operand {
        Operand::Value(literal) => literal,
        Operand::Var(name) => inputs.get(name).unwrap(),
    }
}

/// How two values of one primitive type stand. None for values of two types, or of another one.
fn order(left: &Literal, right: &Literal) -> Option<Ordering>
    ensures { result ≡ order_of (out-Literal left.now) (out-Literal right.now) }
{
    match left {
        Literal::Integer(a) => match right {
            Literal::Integer(b) => Some(a.cmp(b)),
            _ => None,
        },
        Literal::Text(a) => match right {
            Literal::Text(b) => Some(a.cmp(b)),
            _ => None,
        },
        Literal::Boolean(a) => match right {
            Literal::Boolean(b) => Some(a.cmp(b)),
            _ => None,
        },
        Literal::Datetime {
            seconds: s,
            nanos: n,
        } => match right {
            Literal::Datetime { seconds, nanos } => {
                let left = nanoseconds(*s, i64::from(*n));
                Some(left.cmp(&nanoseconds(*seconds, i64::from(*nanos))))
            }
            _ => None,
        },
        Literal::Duration {
            seconds: s,
            nanos: n,
        } => match right {
            Literal::Duration { seconds, nanos } => {
                let left = nanoseconds(*s, i64::from(*n));
                Some(left.cmp(&nanoseconds(*seconds, i64::from(*nanos))))
            }
            _ => None,
        },
        _ => None,
    }
}

/// A date-time or a duration as a count of nanoseconds.
fn nanoseconds(seconds: i64, nanos: i64) -> i128
    ensures { result ≡ nanoseconds seconds nanos }
{
    i128::from(seconds) * NANOS_PER_SECOND + i128::from(nanos)
}

impl Comparison {
    /// Whether values that stand so make the comparison true.
    fn admits(self, order: Ordering) -> bool
        ensures { result ≡ admits self order }
    {
        match self {
            Comparison::Eq => order.is_eq(),
            Comparison::Neq => order.is_ne(),
            Comparison::Gt => order.is_gt(),
            Comparison::Gte => order.is_ge(),
            Comparison::Lt => order.is_lt(),
            Comparison::Lte => order.is_le(),
        }
    }
}
