ghost use Rattle.std.specs.Prelude.{◌≡◌, ◌↔◌, IfOk, IsTrue};

use crate::same::is_same_variable;
use crate::{LiteralType, NoMemory, Text, TryCopy};
use std::alloc::Global;

/// An input or an output of an interface, as an entry of flyteidl's `VariableMap`: its name and its type.
#[derive(Debug, Drop)]
pub struct Variable {
    pub name: Text,
    pub kind: LiteralType,
}

impl Variable {
    /// A second one.
    pub fn copy(&self, alloc: Global) -> Result<Variable, NoMemory>
        ensures { IfOk result (λ c. c ≡ self.now) }
    {
        Ok(Variable {
            name: self.name.copy(alloc)?,
            kind: self.kind.copy(alloc)?,
        })
    }
}

impl TryCopy for Variable {
    fn copy(&self, alloc: Global) -> Result<Variable, NoMemory> {
        Variable::copy(self, alloc)
    }
}

impl PartialEq for Variable {
    ghost use Rattle.fly_types.specs.Same.{same_variable};
    ghost use Rattle.fly_types.specs.Laws.{same_variable-partial_laws};

    ghost eq = { same_variable };

    ghost laws = { same_variable-partial_laws };

    fn eq(&self, other: &Variable) -> bool
        ensures value { result ≡ same_variable self.now other.now }
        ensures same { IsTrue result ↔ (self.now ≡ other.now) }
    {
        is_same_variable(self, other)
    }
}

impl Eq for Variable {
    ghost use Rattle.fly_types.specs.Laws.{same_variable-laws};

    ghost laws = { same_variable-laws };
}
