ghost use Rattle.std.specs.Prelude.{◌≡◌, true, IfOk, OnOk, string_bytes};
ghost use Rattle.serde_json.specs.Written.{compact_text};
ghost use Rattle.fly_world.specs.Steps.{is_in_plan};
ghost use Rattle.fly_journal.specs.Words.{step_word as word_of_step};
ghost use Rattle.fly_journal.specs.Moves.{AreInPlan, slot_text as text_of_slot, step_fields, move_json, moves_json};
ghost use Rattle.fly_journal.specs.Texts.{texts_of, with_values};

use crate::object::Object;
use crate::values::path_text;
use fly_state::{At, Move, Plan, Step};
use fly_types::NoMemory;
use std::alloc::Global;

/// The word of a step in the journal.
pub fn step_word(step: &Step) -> &'static str
    ensures { result.now ≡ word_of_step step.now }
{
    match step {
        Step::Begin => "begin",
        Step::Queue => "queue",
        Step::Choose(_) => "choose",
        Step::NoCase => "noCase",
        Step::InputFail => "inputFail",
        Step::Skip => "skip",
        Step::Run { .. } => "run",
        Step::Hit(_) => "hit",
        Step::Retry => "retry",
        Step::Settle => "settle",
        Step::Stored(_) => "stored",
        Step::Close => "close",
        Step::Abort => "abort",
    }
}

/// The text of a slot of the plan in the journal: a point for the root, else the path of the node, with the number of the
/// item behind it.
pub fn slot_text(alloc: Global, plan: &Plan, at: &At) -> Result<String, NoMemory>
    requires { is_in_plan plan.now at.now ≡ true }
    ensures { IfOk result (λ text. string_bytes text ≡ text_of_slot plan.now at.now.node at.now.item) }
{
    let Some(node) = at.node else {
        return Ok(String::from_str(alloc, ".")?);
    };
    let mut text = path_text(alloc, plan.path_of(node).as_slice())?;
    if let Some(item) = at.item {
        write!(text, "#{item}")?;
    }
    Ok(text)
}

/// Adds what a step names: a case, or the entries that it cites.
fn put_step(object: &mut Object, step: &Step) -> Result<(), NoMemory>
    ensures { OnOk result (texts_of object.new ≡ with_values (texts_of object.old) (step_fields step.now)) }
{
    match step {
        Step::Choose(case) => object.count("pick", u64::from(*case)),
        Step::Run { miss, lease } => {
            object.optional_count("miss", *miss)?;
            object.optional_count("lease", *lease)
        }
        Step::Hit(place) => object.count("entry", *place),
        Step::Stored(place) => object.count("entry", *place),
        _ => Ok(()),
    }
}

#[tactic(auto, using(std::proofs::lemmas::Grind::common_steps, crate::proofs::ObjectTexts::message_text))]
fn move_value(alloc: Global, plan: &Plan, m: &Move) -> Result<Vec<u8>, NoMemory>
    requires { is_in_plan plan.now m.now.at ≡ true }
    ensures { IfOk result (λ value. value.items ≡ compact_text (move_json plan.now m.now)) }
{
    let slot = slot_text(alloc, plan, &m.at)?;
    let mut object = Object::new(alloc);
    object.text("at", slot.as_str())?;
    object.text("do", step_word(&m.step))?;
    put_step(&mut object, &m.step)?;
    object.into_vec()
}

/// The moves of a Write, in order.
pub fn moves_value(alloc: Global, plan: &Plan, moves: &[Move]) -> Result<Vec<u8>, NoMemory>
    requires { AreInPlan plan.now moves.now }
    ensures { IfOk result (λ value. value.items ≡ compact_text (moves_json plan.now moves.now)) }
{
    let mut text = Vec::new(alloc);
    text.push(b'[')?;
    let mut later = false;
    for m in moves {
        if later {
            text.push(b',')?;
        }
        let value = move_value(alloc, plan, m)?;
        text.extend_from_slice(&value)?;
        later = true;
    }
    text.push(b']')?;
    Ok(text)
}
