ghost use Rattle.std.specs.Prelude.{◌≡◌, ◌≢◌, ◌↔◌, pos, [], IsTrue, IfOk};
ghost use Rattle.fly_policy.specs.Outcome.{AreOutputs, Gives, IsOutcomeOf, IsOutcomeOfSuccess, outcome_of_failure};

use crate::Heard;
use fly_types::{List, Literal, LiteralMap, NoMemory, Said, Text, TryCopy, Variable, is_member};
use std::alloc::Global;

/// What an attempt of a task came to.
#[derive(Debug, Drop)]
pub enum Outcome {
    Succeeded(LiteralMap),
    /// A failure that another attempt may mend, as the kind RECOVERABLE of flyteidl's `ContainerError`.
    Recoverable { code: Text, message: Text },
    Fatal { code: Text, message: Text },
    TimedOut,
}

impl Outcome {
    pub fn copy(&self, alloc: Global) -> Result<Outcome, NoMemory>
        ensures { IfOk result (λ c. c ≡ self.now) }
    {
        match self {
            Outcome::Succeeded(outputs) => Ok(Outcome::Succeeded(outputs.copy(alloc)?)),
            Outcome::Recoverable { code, message } => Ok(Outcome::Recoverable {
                code: code.copy(alloc)?,
                message: message.copy(alloc)?,
            }),
            Outcome::Fatal { code, message } => Ok(Outcome::Fatal {
                code: code.copy(alloc)?,
                message: message.copy(alloc)?,
            }),
            Outcome::TimedOut => Ok(Outcome::TimedOut),
        }
    }
}

impl TryCopy for Outcome {
    fn copy(&self, alloc: Global) -> Result<Outcome, NoMemory> {
        Outcome::copy(self, alloc)
    }
}

impl PartialEq for Outcome {
    ghost use Rattle.std.specs.Prelude.{◌≡◌, ◌↔◌, IsTrue};
    ghost use Rattle.fly_policy.specs.Same.{same_outcome};
    ghost use Rattle.fly_policy.specs.Laws.{same_outcome-partial_laws};

    ghost eq = { same_outcome };

    ghost laws = { same_outcome-partial_laws };

    fn eq(&self, other: &Outcome) -> bool
        ensures value { result ≡ same_outcome self.now other.now }
        ensures same { IsTrue result ↔ (self.now ≡ other.now) }
    {
        self.is_same(other)
    }
}

impl Eq for Outcome {
    ghost use Rattle.fly_policy.specs.Laws.{same_outcome-laws};

    ghost laws = { same_outcome-laws };
}

impl Outcome {
    /// What `==` answers, for callers that want it as equality.
    pub fn is_same(&self, other: &Outcome) -> bool
        ensures { IsTrue result ↔ (self.now ≡ other.now) }
    {
        match self {
            Outcome::Succeeded(a) => match other {
                Outcome::Succeeded(b) => a.is_same(b),
                _ => false,
            },
            Outcome::Recoverable {
                code: c,
                message: m,
            } => {
                matches!(other, Outcome::Recoverable { code, message } if c == code && m == message)
            }
            Outcome::Fatal {
                code: c,
                message: m,
            } => { matches!(other, Outcome::Fatal { code, message } if c == code && m == message) }
            Outcome::TimedOut => matches!(other, Outcome::TimedOut),
        }
    }
}

/// What the end of a child means for its attempt, where its task declares these outputs.
pub fn outcome_of(
    alloc: Global,
    heard: Heard,
    outputs: &List<Variable>,
) -> Result<Outcome, NoMemory>
    ensures { IfOk result (λ outcome. IsOutcomeOf outputs.now heard outcome) }
{
    match heard {
        Heard::Fault => recoverable(alloc, "SpawnFault"),
        Heard::NoStatus => recoverable(alloc, "Signal"),
        Heard::Ended { status, said } => {
            if status == 0 {
                after_success(alloc, said, outputs)
            } else {
                after_failure(alloc, status, said)
            }
        }
    }
}

/// What a child with status 0 comes to.
fn after_success(alloc: Global, said: Said, outputs: &List<Variable>) -> Result<Outcome, NoMemory>
    ensures { IfOk result (λ outcome. IsOutcomeOfSuccess outputs.now said outcome) }
{
    match said {
        Said::Outputs(given) => {
            if are_outputs(&given, outputs.as_slice()) {
                Ok(Outcome::Succeeded(given))
            } else {
                fatal(alloc, "BadOutputs")
            }
        }
        Said::TooLarge => fatal(alloc, "OutputTooLarge"),
        Said::Error { .. } | Said::Neither => fatal(alloc, "BadOutputs"),
    }
}

/// What a child with another status comes to.
fn after_failure(alloc: Global, status: i32, said: Said) -> Result<Outcome, NoMemory>
    ensures { IfOk result (λ outcome. outcome ≡ outcome_of_failure status said) }
{
    match said {
        Said::Error {
            code,
            message,
            recoverable,
        } => {
            if recoverable {
                Ok(Outcome::Recoverable { code, message })
            } else {
                Ok(Outcome::Fatal { code, message })
            }
        }
        Said::Outputs(_) | Said::TooLarge | Said::Neither => Ok(Outcome::Recoverable {
            code: Text::from_str(alloc, "ExitStatus")?,
            message: Text::from_string(format!(in alloc; "{status}")?),
        }),
    }
}

/// Whether the literals are exactly the outputs.
fn are_outputs(given: &LiteralMap, outputs: &[Variable]) -> bool
    ensures { IsTrue result ↔ AreOutputs outputs.now given.now }
{
    let entries = given.entries.as_slice();
    if entries.len() != outputs.len() {
        return false;
    }
    for (i, output) in outputs.iter().enumerate() {
        if !gives(&entries[i], output) {
            return false;
        }
    }
    true
}

fn gives(entry: &(Text, Literal), output: &Variable) -> bool
    ensures { IsTrue result ↔ Gives output.now entry.now }
{
    entry.0 == output.name && is_member(&entry.1, &output.kind)
}

fn recoverable(alloc: Global, code: &str) -> Result<Outcome, NoMemory>
    ensures { IfOk result (λ outcome. outcome ≡ Outcome.Recoverable code.now []) }
{
    Ok(Outcome::Recoverable {
        code: Text::from_str(alloc, code)?,
        message: Text::from_string(String::new(alloc)),
    })
}

fn fatal(alloc: Global, code: &str) -> Result<Outcome, NoMemory>
    ensures { IfOk result (λ outcome. outcome ≡ Outcome.Fatal code.now []) }
{
    Ok(Outcome::Fatal {
        code: Text::from_str(alloc, code)?,
        message: Text::from_string(String::new(alloc)),
    })
}
