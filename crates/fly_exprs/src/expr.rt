ghost use Rattle.std.specs.Prelude.{◌≡◌, ◌↔◌, IfOk, IsTrue};

use fly_types::{Boxed, Literal, NoMemory, Text, TryCopy};
use std::alloc::Global;

/// How a comparison relates its two operands, as flyteidl's `ComparisonExpression.Operator`.
#[derive(Clone, Copy, Debug, PartialEq, Eq)]
pub enum Comparison {
    Eq,
    Neq,
    Gt,
    Gte,
    Lt,
    Lte,
}

/// How a conjunction joins its two sides, as flyteidl's `ConjunctionExpression.LogicalOperator`.
#[derive(Clone, Copy, Debug, PartialEq, Eq)]
pub enum Conjunction {
    And,
    Or,
}

/// One side of a comparison, as flyteidl's `Operand`: a literal, or the name of one of the branch's inputs.
#[derive(Debug, Drop)]
pub enum Operand {
    Value(Literal),
    Var(Text),
}

/// The condition of a branch's case, as flyteidl's `BooleanExpression`.
#[derive(Debug, Drop)]
pub enum Expr {
    Compare(Comparison, Operand, Operand),
    Join(Conjunction, Boxed<Expr>, Boxed<Expr>),
}

impl Operand {
    pub fn copy(&self, alloc: Global) -> Result<Operand, NoMemory>
        ensures { IfOk result (λ c. c ≡ self.now) }
    {
        match self {
            Operand::Value(literal) => Ok(Operand::Value(literal.copy(alloc)?)),
            Operand::Var(name) => Ok(Operand::Var(name.copy(alloc)?)),
        }
    }

    /// What `==` answers, for callers that want it as equality.
    pub fn is_same(&self, other: &Operand) -> bool
        ensures { IsTrue result ↔ (self.now ≡ other.now) }
    {
        match self {
            Operand::Value(a) => match other {
                Operand::Value(b) => a.is_same(b),
                _ => false,
            },
            Operand::Var(a) => match other {
                Operand::Var(b) => a == b,
                _ => false,
            },
        }
    }
}

impl TryCopy for Operand {
    fn copy(&self, alloc: Global) -> Result<Operand, NoMemory> {
        Operand::copy(self, alloc)
    }
}

impl PartialEq for Operand {
    ghost use Rattle.std.specs.Prelude.{◌≡◌, ◌↔◌, IsTrue};
    ghost use Rattle.fly_exprs.specs.Same.{same_operand};
    ghost use Rattle.fly_exprs.specs.SameLaws.{same_operand-partial_laws};

    ghost eq = { same_operand };

    ghost laws = { same_operand-partial_laws };

    fn eq(&self, other: &Operand) -> bool
        ensures value { result ≡ same_operand self.now other.now }
        ensures same { IsTrue result ↔ (self.now ≡ other.now) }
    {
        self.is_same(other)
    }
}

impl Eq for Operand {
    ghost use Rattle.fly_exprs.specs.SameLaws.{same_operand-laws};

    ghost laws = { same_operand-laws };
}

impl Expr {
    pub fn copy(&self, alloc: Global) -> Result<Expr, NoMemory>
        ensures { IfOk result (λ c. c ≡ self.now) }
    {
        match self {
            Expr::Compare(comparison, left, right) => {
                let left = left.copy(alloc)?;
                Ok(Expr::Compare(*comparison, left, right.copy(alloc)?))
            }
            Expr::Join(conjunction, left, right) => {
                let left = left.get().copy(alloc)?;
                let right = right.get().copy(alloc)?;
                let left = Boxed::new(alloc, left)?;
                Ok(Expr::Join(*conjunction, left, Boxed::new(alloc, right)?))
            }
        }
    }

    /// What `==` answers, for callers that want it as equality.
    pub fn is_same(&self, other: &Expr) -> bool
        ensures { IsTrue result ↔ (self.now ≡ other.now) }
    {
        match self {
            Expr::Compare(comparison, left, right) => match other {
                Expr::Compare(c, l, r) => comparison == c && left.is_same(l) && right.is_same(r),
                _ => false,
            },
            Expr::Join(conjunction, left, right) => match other {
                Expr::Join(c, l, r) => {
                    conjunction == c && left.get().is_same(l.get()) && right.get().is_same(r.get())
                }
                _ => false,
            },
        }
    }
}

impl TryCopy for Expr {
    fn copy(&self, alloc: Global) -> Result<Expr, NoMemory> {
        Expr::copy(self, alloc)
    }
}

impl PartialEq for Expr {
    ghost use Rattle.std.specs.Prelude.{◌≡◌, ◌↔◌, IsTrue};
    ghost use Rattle.fly_exprs.specs.Same.{same_expr};
    ghost use Rattle.fly_exprs.specs.SameLaws.{same_expr-partial_laws};

    ghost eq = { same_expr };

    ghost laws = { same_expr-partial_laws };

    fn eq(&self, other: &Expr) -> bool
        ensures value { result ≡ same_expr self.now other.now }
        ensures same { IsTrue result ↔ (self.now ≡ other.now) }
    {
        self.is_same(other)
    }
}

impl Eq for Expr {
    ghost use Rattle.fly_exprs.specs.SameLaws.{same_expr-laws};

    ghost laws = { same_expr-laws };
}
