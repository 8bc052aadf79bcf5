ghost use Rattle.std.specs.Prelude.{◌≡◌, IfOk};

use fly_types::{List, NoMemory, Text, TryCopy};
use std::alloc::Global;

/// What is wrong with a bundle. The names are those that are printed.
#[derive(Clone, Copy, Debug, PartialEq, Eq)]
pub enum Code {
    DuplicateId,
    WorkflowNotFound,
    NoNodes,
    TooManyNodes,
    TaskNotFound,
    NodeNotFound,
    BranchNoCondition,
    BoundTwice,
    VariableNotFound,
    IllegalEnumValue,
    MismatchedTypes,
    NotBound,
    ArrayNoMapped,
    TypeTooDeep,
    ExprFault,
    OutputNotBound,
    CycleDetected,
    TemplateInput,
    RecursiveWorkflow,
    NestingTooDeep,
    PlanTooLarge,
    TooManyArrays,
}

/// One reason why a bundle is refused, as a line of the compiler's report.
#[derive(Debug, PartialEq, Eq, Drop)]
pub struct Fault {
    pub code: Code,
    /// Where it is: a list element of the bundle, a workflow, a node or an output of one, or a variable there.
    pub place: Text,
    /// What more there is to say, or nothing.
    pub detail: Text,
}

/// Why a bundle was not compiled.
#[derive(Debug, PartialEq, Eq, Drop)]
pub enum CompileFault {
    /// All faults of the bundle, in the order of the report.
    Refused(List<Fault>),
    NoMemory,
}

impl From<NoMemory> for CompileFault {
    ghost use Rattle.std.specs.Prelude.{◌≡◌};
    ghost use Rattle.fly_faults.specs.declared.fault.CompileFault.TheVariants as fault;

    ghost from_gives = { λ _ e. e ≡ fault.NoMemory };

    fn from(_: NoMemory) -> CompileFault {
        CompileFault::NoMemory
    }
}

impl Fault {
    pub fn copy(&self, alloc: Global) -> Result<Fault, NoMemory>
        ensures { IfOk result (λ c. c ≡ self.now) }
    {
        Ok(Fault {
            code: self.code,
            place: self.place.copy(alloc)?,
            detail: self.detail.copy(alloc)?,
        })
    }
}

impl TryCopy for Fault {
    fn copy(&self, alloc: Global) -> Result<Fault, NoMemory> {
        Fault::copy(self, alloc)
    }
}

impl CompileFault {
    pub fn copy(&self, alloc: Global) -> Result<CompileFault, NoMemory>
        ensures { IfOk result (λ c. c ≡ self.now) }
    {
        match self {
            CompileFault::Refused(faults) => Ok(CompileFault::Refused(faults.copy(alloc)?)),
            CompileFault::NoMemory => Ok(CompileFault::NoMemory),
        }
    }
}
