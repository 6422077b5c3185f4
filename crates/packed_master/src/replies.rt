// What a step of the master gives back, as bytes.
ghost use Rattle.std.specs.Prelude.{◌≡◌};
ghost use Rattle.packed_master.specs.Replies.{replied};

use crate::offsets::REPLY_LENGTH;
use base_bytes::put;
use machine_events::command_number;
use machine_master::Command;

// Puts a reply at the front of a buffer that has room for it. With packed_node's it shares one test, which as a function would need a clause of its own.
pub fn put_reply(buffer: &mut [u8], command: Command, lost: u8, node: u8)
    ensures { buffer.new ≡ replied command lost node buffer.old }
{
    if REPLY_LENGTH <= buffer.len() {
        put(buffer, 0, &[command_number(command), lost, node]);
    }
}
