// A node's state as bytes.
ghost use Rattle.std.specs.Prelude.{◌≡◌};
ghost use Rattle.std.proofs.lemmas.List.Edits.{sets};
ghost use Rattle.machine_node.specs.Changes.{power_on};
ghost use Rattle.packed_node.specs.States.{delay_bytes, delay_of, node_head, node_bytes, is_node, node_from, node_out_of_range, node_of};

use crate::offsets::{
    CALLER_AT, COUNTS_AT, DELAY_AT, ERROR_AT, HEARD_AT, LENGTH, PERMISSION_AT, QUIET_AT,
    STANDBY_AT, STATE_AT, WAKE_AT,
};
use base_bytes::{byte_at, long_number, number_at, put};
use machine_node::Node;
use machine_state::{State, start_state, table_at};

fn delay_bytes(delay: Option<u16>) -> [u8; 3]
    ensures { result ≡ delay_bytes delay }
{
    match delay {
        None => [0, 0, 0],
        Some(ticks) => {
            let [high, low] = ticks.to_be_bytes();
            [1, high, low]
        }
    }
}

fn delay_of(runs: u8, ticks: u16) -> Option<u16>
    ensures { result ≡ delay_of runs ticks }
{
    (runs == 1).then_some(ticks)
}

fn node_head(node: Node) -> [u8; COUNTS_AT]
    ensures { result ≡ node_head node }
{
    let [quiet_high, quiet_low] = node.quiet.to_be_bytes();
    let [runs, delay_high, delay_low] = delay_bytes(node.delay);
    let [s0, s1, s2, s3] = node.standby.to_be_bytes();
    [
        u8::from(node.state),
        u8::from(node.permission),
        u8::from(node.error),
        u8::from(node.wake),
        u8::from(node.heard),
        u8::from(node.caller),
        quiet_high,
        quiet_low,
        runs,
        delay_high,
        delay_low,
        s0,
        s1,
        s2,
        s3,
    ]
}

// Puts a state at the front of a buffer.
pub fn put_node(buffer: &mut [u8], node: Node)
    ensures { buffer.new ≡ sets buffer.old 0 (node_bytes node) }
{
    put(buffer, 0, &node_head(node)[..]);
    put(buffer, COUNTS_AT, &node.counts[..]);
}

// Puts the state at power-on at the front of a buffer: constants, which the compiler stores without reckoning them from a node.
pub fn put_power_on(buffer: &mut [u8], sleeps: bool)
    ensures { buffer.new ≡ sets buffer.old 0 (node_bytes (power_on sleeps)) }
{
    let mut bytes = [0; LENGTH];
    bytes[STATE_AT] = u8::from(start_state(sleeps));
    put(buffer, 0, &bytes[..]);
}

#[tactic(auto, unfolding(crate::specs::States::is_node))]
fn is_node(bytes: &[u8]) -> bool
    ensures { result ≡ is_node bytes.now }
{
    (bytes.len() == LENGTH)
        & (byte_at(bytes, STATE_AT) < 3)
        & (byte_at(bytes, PERMISSION_AT) < 2)
        & (byte_at(bytes, ERROR_AT) < 2)
        & (byte_at(bytes, WAKE_AT) < 2)
        & (byte_at(bytes, HEARD_AT) < 2)
        & (byte_at(bytes, CALLER_AT) < 2)
        & (byte_at(bytes, DELAY_AT) < 2)
        & ((byte_at(bytes, DELAY_AT) == 1) | (number_at(bytes, DELAY_AT + 1) == 0))
}

fn node_from(bytes: &[u8]) -> Node
    ensures { result ≡ node_from bytes.now }
{
    Node {
        state: State::from(byte_at(bytes, STATE_AT)),
        permission: byte_at(bytes, PERMISSION_AT) == 1,
        error: byte_at(bytes, ERROR_AT) == 1,
        wake: byte_at(bytes, WAKE_AT) == 1,
        heard: byte_at(bytes, HEARD_AT) == 1,
        caller: byte_at(bytes, CALLER_AT) == 1,
        quiet: number_at(bytes, QUIET_AT),
        delay: delay_of(byte_at(bytes, DELAY_AT), number_at(bytes, DELAY_AT + 1)),
        standby: long_number(
            number_at(bytes, STANDBY_AT),
            number_at(bytes, STANDBY_AT + 2),
        ),
        counts: table_at(bytes, COUNTS_AT),
    }
}

// Out of range under every plan.
fn node_out_of_range() -> Node
    ensures { result ≡ node_out_of_range }
{
    Node {
        standby: 1,
        ..Node::power_on(true)
    }
}

// The node of bytes; of bytes that are no state one that each step refuses as 11.
pub fn node_of(bytes: &[u8]) -> Node
    ensures { result ≡ node_of bytes.now }
{
    if is_node(bytes) {
        node_from(bytes)
    } else {
        node_out_of_range()
    }
}
