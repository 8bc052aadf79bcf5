ghost use Rattle.std.specs.Prelude.{◌≡◌, IfOk, OnOk};
ghost use Rattle.fly_journal.specs.Lines.{HasLine, common_fields, line_text};
ghost use Rattle.fly_journal.specs.Texts.{texts_of, with_values};

use crate::object::Object;
use crate::ops::{op_word, put_op};
use crate::replies::{put_reply, reply_word};
use fly_state::{Entry, Plan};
use fly_types::NoMemory;
use std::alloc::Global;

/// The line of an entry in the journal of a run of the plan: one JSON object with no space and with the keys of each
/// object sorted by their bytes, and a newline.
pub fn write_line(alloc: Global, p: &Plan, e: &Entry) -> Result<Vec<u8>, NoMemory>
    requires { HasLine p.now e.now }
    ensures { IfOk result (λ line. line.items ≡ line_text p.now e.now) }
{
    let mut object = Object::new(alloc);
    put_op(&mut object, p, &e.op)?;
    put_reply(&mut object, &e.reply)?;
    put_common(&mut object, e)?;
    let mut line = object.into_vec()?;
    line.push(b'\n')?;
    Ok(line)
}

/// Adds what every line has: the words of the operation and of the reply, and the worker.
pub(crate) fn put_common(object: &mut Object, e: &Entry) -> Result<(), NoMemory>
    ensures { OnOk result (texts_of object.new ≡ with_values (texts_of object.old) (common_fields e.now)) }
{
    object.text("op", op_word(&e.op))?;
    object.text("r", reply_word(&e.reply))?;
    object.count("w", u64::from(e.worker))
}
