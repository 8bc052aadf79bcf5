ghost use Rattle.std.specs.Prelude.{◌≡◌, IfOk};
ghost use Rattle.serde_json.specs.Written.{compact_text};
ghost use Rattle.fly_writers.specs.Json.{message};
ghost use Rattle.fly_journal.specs.Outcomes.{failure_fields, outcome_json};

use crate::object::Object;
use fly_policy::Outcome;
use fly_types::{NoMemory, Text};
use std::alloc::Global;

/// What an attempt came to.
#[tactic(auto, using(std::proofs::lemmas::Grind::common_steps, crate::proofs::ObjectTexts::message_text))]
pub fn outcome_value(alloc: Global, outcome: &Outcome) -> Result<Vec<u8>, NoMemory>
    ensures { IfOk result (λ value. value.items ≡ compact_text (outcome_json outcome.now)) }
{
    match outcome {
        Outcome::Succeeded(outputs) => {
            let mut object = Object::new(alloc);
            object.literals("outputs", outputs)?;
            object.into_vec()
        }
        Outcome::Recoverable { code, message } => {
            failure_value(alloc, code, message, "RECOVERABLE")
        }
        Outcome::Fatal { code, message } => failure_value(alloc, code, message, "NON_RECOVERABLE"),
        Outcome::TimedOut => Object::new(alloc).into_vec(),
    }
}

#[tactic(auto, using(std::proofs::lemmas::Grind::common_steps, crate::proofs::ObjectTexts::message_text))]
fn failure_value(alloc: Global, code: &Text, text: &Text, kind: &str) -> Result<Vec<u8>, NoMemory>
    ensures { IfOk result (λ value. value.items ≡ compact_text (message (failure_fields code.now text.now kind.now))) }
{
    let mut object = Object::new(alloc);
    object.text("code", code.as_str())?;
    object.text("kind", kind)?;
    object.text("message", text.as_str())?;
    object.into_vec()
}
