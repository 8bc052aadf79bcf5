ghost use Rattle.std.specs.Prelude.{◌≡◌, OnOk};
ghost use Rattle.fly_journal.specs.Words.{reply_word as word_of_reply};
ghost use Rattle.fly_journal.specs.Replies.{reply_fields};
ghost use Rattle.fly_journal.specs.Texts.{texts_of, with_values};

use crate::object::Object;
use fly_state::Reply;
use fly_types::NoMemory;

/// The word of a reply.
pub fn reply_word(reply: &Reply) -> &'static str
    ensures { result.now ≡ word_of_reply reply.now }
{
    match reply {
        Reply::Begun => "begun",
        Reply::Imported => "imported",
        Reply::Submitted => "submitted",
        Reply::Taken => "taken",
        Reply::Now(_) => "now",
        Reply::Swept(_) => "swept",
        Reply::Idle => "idle",
        Reply::Viewed { .. } => "viewed",
        Reply::NotReady => "notReady",
        Reply::Hit(_) => "hit",
        Reply::Miss => "miss",
        Reply::Granted(_) => "granted",
        Reply::HeldBy(..) => "heldBy",
        Reply::Already => "already",
        Reply::NotRunning => "notRunning",
        Reply::BadInputs => "badInputs",
        Reply::Launched => "launched",
        Reply::NotClaimed => "notClaimed",
        Reply::AlreadySettled => "alreadySettled",
        Reply::NotDue => "notDue",
        Reply::Expired => "expired",
        Reply::Present => "present",
        Reply::Stored => "stored",
        Reply::Stale(_) => "stale",
        Reply::IllegalMove(_) => "illegalMove",
        Reply::Written(_) => "written",
        Reply::Nothing => "nothing",
        Reply::Claimed(_) => "claimed",
        Reply::Recorded => "recorded",
        Reply::Unknown => "unknown",
        Reply::NoMemory => "noMemory",
    }
}

/// Adds what a reply tells.
pub fn put_reply(object: &mut Object, reply: &Reply) -> Result<(), NoMemory>
    ensures { OnOk result (texts_of object.new ≡ with_values (texts_of object.old) (reply_fields reply.now)) }
{
    match reply {
        Reply::Now(moment) => object.moment("moment", *moment),
        Reply::Swept(count) => object.count("count", *count),
        Reply::Viewed {
            exec,
            version,
            current,
        } => {
            object.text("exec", exec.as_str())?;
            object.count("version", *version)?;
            object.count("current", *current)
        }
        Reply::Hit(content) => object.literals("found", content),
        Reply::Granted(expiry) => object.moment("expiry", *expiry),
        Reply::HeldBy(owner, expiry) => {
            object.text("owner", owner.as_str())?;
            object.moment("expiry", *expiry)
        }
        Reply::Stale(current) => object.count("current", *current),
        Reply::IllegalMove(index) => object.count("index", *index),
        Reply::Written(version) => object.count("version", *version),
        Reply::Claimed(name) => object.attempt("name", name),
        _ => Ok(()),
    }
}
