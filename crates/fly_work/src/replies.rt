ghost use Rattle.std.specs.Prelude.{◌≡◌, ◌≢◌, OnOk, OnErr};
ghost use Rattle.fly_state.specs.declared.entries.Reply.TheVariants as replies;

use fly_state::Reply;
use fly_types::NoMemory;
use fly_world::Called;

/// Whether a call found its memory, where its reply tells nothing else that is needed.
pub(crate) fn found_memory(called: Called) -> Result<(), NoMemory>
    ensures ok { OnOk result (called.reply ≢ replies.NoMemory) }
    ensures err { OnErr result (called.reply ≡ replies.NoMemory) }
{
    match called.reply {
        Reply::NoMemory => Err(NoMemory),
        _ => Ok(()),
    }
}
