// What a step of a node gives back, as bytes.
ghost use Rattle.std.specs.Prelude.{◌≡◌};
ghost use Rattle.packed_node.specs.Replies.{reply_bytes, replied};

use crate::offsets::REPLY_LENGTH;
use base_bytes::put;
use machine_node::Command;

fn reply_bytes(command: Command) -> [u8; REPLY_LENGTH]
    ensures { result ≡ reply_bytes command }
{
    match command {
        Command::Nothing => [0, 0, 0, 0],
        Command::Pulse => [1, 0, 0, 0],
        Command::Send {
            permission,
            wake,
            count,
        } => [2, u8::from(permission), u8::from(wake), count],
    }
}

// Puts a reply at the front of a buffer that has room for it.
pub fn put_reply(buffer: &mut [u8], command: Command)
    ensures { buffer.new ≡ replied command buffer.old }
{
    if REPLY_LENGTH <= buffer.len() {
        put(buffer, 0, &reply_bytes(command)[..]);
    }
}
