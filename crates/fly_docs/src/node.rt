ghost use Rattle.std.specs.Prelude.{◌≡◌, IfOk};

use crate::{Binding, Identifier};
use fly_exprs::Expr;
use fly_types::{Boxed, List, NoMemory, Text, TryCopy};
use std::alloc::Global;

/// One step of a workflow, as flyteidl's `Node`.
#[cycle(node)]
#[derive(Debug, PartialEq, Eq, Drop)]
pub struct Node {
    pub id: Text,
    /// In milliseconds. 0 leaves it to the task.
    pub timeout_ms: u64,
    /// How many attempts may follow the first, 10 at most. 0 leaves it to the task.
    pub retries: u32,
    pub inputs: List<Binding>,
    /// Nodes that go before this one, whether it takes an output of theirs or not.
    pub upstream: List<Text>,
    pub target: Target,
}

/// What a node stands for, as the `one of` of flyteidl's `Node`.
#[cycle(node)]
#[derive(Debug, PartialEq, Eq, Drop)]
pub enum Target {
    /// A task of the bundle, as flyteidl's `TaskNode`.
    Task(Identifier),
    /// A workflow of the bundle, as flyteidl's `WorkflowNode` with a `sub_workflow_ref`.
    Workflow(Identifier),
    /// The first case whose condition holds, or else the node of `otherwise`, as flyteidl's `BranchNode` with its
    /// `IfElseBlock`. At least one case, and at most one of `otherwise` and `error`.
    Branch {
        cases: List<Case>,
        /// The node that runs where no condition holds, `else_node`.
        otherwise: Option<Boxed<Node>>,
        /// What the document says of a branch where no condition holds, the message of `error`.
        error: Option<Text>,
    },
    /// A task over each element of lists, as flyteidl's `ArrayNode` with a `TaskNode`.
    Array {
        task: Identifier,
        /// How many items have to succeed, `min_successes`. Without it all have to.
        min_successes: Option<u32>,
    },
}

/// One case of a branch, as flyteidl's `IfBlock`.
#[cycle(node)]
#[derive(Debug, PartialEq, Eq, Drop)]
pub struct Case {
    /// A document may leave it out, which the compiler refuses.
    pub condition: Option<Expr>,
    pub then: Node,
}

impl Node {
    #[cycle(copy_node)]
    pub fn copy(&self, alloc: Global) -> Result<Node, NoMemory>
        ensures { IfOk result (λ c. c ≡ self.now) }
    {
        Ok(Node {
            id: self.id.copy(alloc)?,
            timeout_ms: self.timeout_ms,
            retries: self.retries,
            inputs: self.inputs.copy(alloc)?,
            upstream: self.upstream.copy(alloc)?,
            target: self.target.copy(alloc)?,
        })
    }
}

impl Target {
    #[cycle(copy_node)]
    pub fn copy(&self, alloc: Global) -> Result<Target, NoMemory>
        ensures { IfOk result (λ c. c ≡ self.now) }
    {
        match self {
            Target::Task(id) => Ok(Target::Task(id.copy(alloc)?)),
            Target::Workflow(id) => Ok(Target::Workflow(id.copy(alloc)?)),
            Target::Branch {
                cases,
                otherwise,
                error,
            } => {
                let copied = copy_cases(alloc, cases.as_slice())?;
                Ok(Target::Branch {
                    cases: List::from_vec(copied),
                    otherwise: copy_otherwise(alloc, otherwise)?,
                    error: copy_text(alloc, error)?,
                })
            }
            Target::Array {
                task,
                min_successes,
            } => Ok(Target::Array {
                task: task.copy(alloc)?,
                min_successes: *min_successes,
            }),
        }
    }
}

#[cycle(copy_node)]
fn copy_cases(alloc: Global, cases: &[Case]) -> Result<Vec<Case>, NoMemory>
    ensures { IfOk result (λ c. c.items ≡ cases.now) }
{
    let mut copied = Vec::with_capacity(alloc, cases.len())?;
    for case in cases {
        copied.push(case.copy(alloc)?)?;
    }
    Ok(copied)
}

#[cycle(copy_node)]
fn copy_otherwise(
    alloc: Global,
    otherwise: &Option<Boxed<Node>>,
) -> Result<Option<Boxed<Node>>, NoMemory>
    ensures { IfOk result (λ c. c ≡ otherwise.now) }
{
    match otherwise {
        None => Ok(None),
        Some(node) => {
            let copied = node.get().copy(alloc)?;
            Ok(Some(Boxed::new(alloc, copied)?))
        }
    }
}

impl Case {
    #[cycle(copy_node)]
    pub fn copy(&self, alloc: Global) -> Result<Case, NoMemory>
        ensures { IfOk result (λ c. c ≡ self.now) }
    {
        Ok(Case {
            condition: copy_condition(alloc, &self.condition)?,
            then: self.then.copy(alloc)?,
        })
    }
}

fn copy_condition(alloc: Global, condition: &Option<Expr>) -> Result<Option<Expr>, NoMemory>
    ensures { IfOk result (λ c. c ≡ condition.now) }
{
    match condition {
        None => Ok(None),
        Some(expr) => Ok(Some(expr.copy(alloc)?)),
    }
}

fn copy_text(alloc: Global, text: &Option<Text>) -> Result<Option<Text>, NoMemory>
    ensures { IfOk result (λ c. c ≡ text.now) }
{
    match text {
        None => Ok(None),
        Some(text) => Ok(Some(text.copy(alloc)?)),
    }
}

impl TryCopy for Node {
    fn copy(&self, alloc: Global) -> Result<Node, NoMemory> {
        Node::copy(self, alloc)
    }
}

impl TryCopy for Target {
    fn copy(&self, alloc: Global) -> Result<Target, NoMemory> {
        Target::copy(self, alloc)
    }
}

impl TryCopy for Case {
    fn copy(&self, alloc: Global) -> Result<Case, NoMemory> {
        Case::copy(self, alloc)
    }
}
