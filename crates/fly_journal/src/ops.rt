ghost use Rattle.std.specs.Prelude.{◌≡◌, OnOk, IfOk};
ghost use Rattle.serde_json.specs.Written.{compact_text};
ghost use Rattle.fly_writers.specs.Json.{message};
ghost use Rattle.fly_journal.specs.Words.{op_word as word_of_op};
ghost use Rattle.fly_journal.specs.Moves.{AreInPlan};
ghost use Rattle.fly_journal.specs.Ops.{op_fields, dataset_fields, import_fields, submit_fields, read_fields, node_fields, launch_fields, write_fields, finish_fields};
ghost use Rattle.fly_journal.specs.Lines.{moves_of};
ghost use Rattle.fly_journal.specs.Texts.{texts_of, with_values};

use crate::moves::moves_value;
use crate::object::Object;
use crate::outcomes::outcome_value;
use fly_docs::{AttemptName, DatasetId};
use fly_policy::Outcome;
use fly_state::{Move, Op, Plan};
use fly_types::{List, LiteralMap, NoMemory, Text};
use std::alloc::Global;

/// The word of an operation.
pub fn op_word(op: &Op) -> &'static str
    ensures { result.now ≡ word_of_op op.now }
{
    match op {
        Op::Begin { .. } => "begin",
        Op::Import { .. } => "import",
        Op::Submit { .. } => "submit",
        Op::Tick { .. } => "tick",
        Op::Sweep => "sweep",
        Op::Read { .. } => "read",
        Op::Lookup { .. } => "lookup",
        Op::Reserve { .. } => "reserve",
        Op::Launch { .. } => "launch",
        Op::Expire { .. } => "expire",
        Op::Put { .. } => "put",
        Op::Write { .. } => "write",
        Op::Claim => "claim",
        Op::Finish { .. } => "finish",
    }
}

/// Adds what an operation asks.
pub fn put_op(object: &mut Object, plan: &Plan, op: &Op) -> Result<(), NoMemory>
    requires { AreInPlan plan.now (moves_of op.now) }
    ensures { OnOk result (texts_of object.new ≡ with_values (texts_of object.old) (op_fields plan.now op.now)) }
{
    match op {
        Op::Begin { closure } => object.hexadecimal("closure", closure.as_slice()),
        Op::Import {
            dataset,
            tag,
            content,
        } => put_import(object, dataset, tag, content),
        Op::Submit { exec, inputs } => put_submit(object, exec, inputs),
        Op::Tick { now } => object.moment("now", *now),
        Op::Sweep => Ok(()),
        Op::Read { from, back } => put_read(object, *from, *back),
        Op::Lookup { exec, path } => put_node(object, exec, path),
        Op::Reserve { exec, path } => put_node(object, exec, path),
        Op::Launch { name, inputs } => put_launch(object, name, inputs),
        Op::Expire { name } => object.attempt("name", name),
        Op::Put { exec, path } => put_node(object, exec, path),
        Op::Write { exec, base, moves } => put_write(object, plan, exec, *base, moves),
        Op::Claim => Ok(()),
        Op::Finish { name, outcome } => put_finish(object, name, outcome),
    }
}

#[tactic(auto, using(std::proofs::lemmas::Grind::common_steps, crate::proofs::ObjectTexts::message_text))]
fn dataset_value(alloc: Global, dataset: &DatasetId) -> Result<Vec<u8>, NoMemory>
    ensures { IfOk result (λ value. value.items ≡ compact_text (message (dataset_fields dataset.now))) }
{
    let mut object = Object::new(alloc);
    object.text("project", dataset.project.as_str())?;
    object.text("domain", dataset.domain.as_str())?;
    object.text("name", dataset.name.as_str())?;
    object.text("version", dataset.version.as_str())?;
    object.into_vec()
}

fn put_import(
    object: &mut Object,
    dataset: &DatasetId,
    tag: &Text,
    content: &LiteralMap,
) -> Result<(), NoMemory>
    ensures { OnOk result (texts_of object.new
        ≡ with_values (texts_of object.old) (import_fields dataset.now tag.now content.now)) }
{
    object.put("dataset", dataset_value(object.alloc, dataset)?)?;
    object.text("tag", tag.as_str())?;
    object.literals("content", content)
}

fn put_submit(object: &mut Object, exec: &Text, inputs: &LiteralMap) -> Result<(), NoMemory>
    ensures { OnOk result (texts_of object.new
        ≡ with_values (texts_of object.old) (submit_fields exec.now inputs.now)) }
{
    object.text("exec", exec.as_str())?;
    object.literals("inputs", inputs)
}

fn put_read(object: &mut Object, from: u64, back: u64) -> Result<(), NoMemory>
    ensures { OnOk result (texts_of object.new ≡ with_values (texts_of object.old) (read_fields from back)) }
{
    object.count("from", from)?;
    object.count("back", back)
}

fn put_node(object: &mut Object, exec: &Text, path: &List<Text>) -> Result<(), NoMemory>
    ensures { OnOk result (texts_of object.new ≡ with_values (texts_of object.old) (node_fields exec.now path.now)) }
{
    object.text("exec", exec.as_str())?;
    object.path("path", path.as_slice())
}

fn put_launch(object: &mut Object, name: &AttemptName, inputs: &LiteralMap) -> Result<(), NoMemory>
    ensures { OnOk result (texts_of object.new
        ≡ with_values (texts_of object.old) (launch_fields name.now inputs.now)) }
{
    object.literals("inputs", inputs)?;
    object.attempt("name", name)
}

fn put_write(
    object: &mut Object,
    plan: &Plan,
    exec: &Text,
    base: u64,
    moves: &List<Move>,
) -> Result<(), NoMemory>
    requires { AreInPlan plan.now moves.now }
    ensures { OnOk result (texts_of object.new
        ≡ with_values (texts_of object.old) (write_fields plan.now exec.now base moves.now)) }
{
    object.text("exec", exec.as_str())?;
    object.count("base", base)?;
    let moves = moves_value(object.alloc, plan, moves.as_slice())?;
    object.put("moves", moves)
}

fn put_finish(object: &mut Object, name: &AttemptName, outcome: &Outcome) -> Result<(), NoMemory>
    ensures { OnOk result (texts_of object.new
        ≡ with_values (texts_of object.old) (finish_fields name.now outcome.now)) }
{
    let outcome = outcome_value(object.alloc, outcome)?;
    object.put("outcome", outcome)?;
    object.attempt("name", name)
}
