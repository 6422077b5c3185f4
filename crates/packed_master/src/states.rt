// The master's state as bytes.
ghost use Rattle.std.specs.Prelude.{◌≡◌, ◌<◌};
ghost use Rattle.std.proofs.lemmas.List.Edits.{sets};
ghost use Rattle.base_lists.specs.Bounded.{all_to};
ghost use Rattle.set_plan.specs.Limits.{max_nodes};
ghost use Rattle.machine_master.specs.Changes.{power_on};
ghost use Rattle.packed_master.specs.States.{phase_byte, phase_of, master_head, holds_bytes, hold_of, holds_of, master_bytes, flag_at, is_master, master_from, master_out_of_range, master_of};

use crate::offsets::{
    CAUSES_AT, COUNTS_AT, DELAY_AT, HOLDS_AT, LENGTH, PERMISSION_AT, PHASE_AT, STATE_AT, TICKS_AT,
};
use base_bytes::{byte_at, long_number, number_at, put};
use machine_master::{Hold, Master, Phase};
use machine_state::{State, bytes_at, start_state, table_at};
use set_plan::{Plan, Row};

// By its place in the enum. No From here and below, since phase and byte are both of other crates.
fn phase_byte(phase: Phase) -> u8
    ensures { result ≡ phase_byte phase }
{
    phase as u8
}

fn phase_of(byte: u8) -> Phase
    ensures { result ≡ phase_of byte }
{
    match byte {
        0 => Phase::Open,
        1 => Phase::Sending,
        2 => Phase::Withdrawn,
        _ => Phase::Closing,
    }
}

fn master_head(master: Master) -> [u8; HOLDS_AT]
    ensures { result ≡ master_head master }
{
    let [delay_high, delay_low] = master.delay.to_be_bytes();
    let [t0, t1, t2, t3] = master.ticks.to_be_bytes();
    [
        u8::from(master.state),
        phase_byte(master.phase),
        u8::from(master.permission),
        delay_high,
        delay_low,
        t0,
        t1,
        t2,
        t3,
    ]
}

fn holds_bytes(holds: [Hold; Plan::NODES]) -> [u8; COUNTS_AT - HOLDS_AT]
    ensures { result ≡ holds_bytes holds }
{
    let mut bytes = [0; COUNTS_AT - HOLDS_AT];
    for k in 0..Plan::NODES {
        let [high, low] = holds[k].age.to_be_bytes();
        bytes[3 * k] = u8::from(holds[k].held);
        bytes[3 * k + 1] = high;
        bytes[3 * k + 2] = low;
    }
    bytes
}

// Puts a state at the front of a buffer.
pub fn put_master(buffer: &mut [u8], master: Master)
    ensures { buffer.new ≡ sets buffer.old 0 (master_bytes master) }
{
    put(buffer, 0, &master_head(master)[..]);
    put(buffer, HOLDS_AT, &holds_bytes(master.holds)[..]);
    put(buffer, COUNTS_AT, &master.counts[..]);
    put(buffer, CAUSES_AT, &master.causes[..]);
}

// Puts the state at power-on at the front of a buffer: constants, which the compiler stores without reckoning them from a master.
pub fn put_power_on(buffer: &mut [u8], sleeps: bool)
    ensures { buffer.new ≡ sets buffer.old 0 (master_bytes (power_on sleeps)) }
{
    let mut front = [0; COUNTS_AT];
    front[STATE_AT] = u8::from(start_state(sleeps));
    let counts = [Master::NO_COUNT; Row::REQIDS];
    let causes = [Master::NEW; Plan::NODES];
    put(buffer, 0, &front[..]);
    put(buffer, COUNTS_AT, &counts[..]);
    put(buffer, CAUSES_AT, &causes[..]);
}

// Whether each permission has a flag. No exit, so that the loop is compiled to straight code.
fn flags_right(bytes: &[u8]) -> bool
    ensures { result ≡ all_to (flag_at bytes.now) max_nodes }
{
    let mut right = true;
    for k in 0..Plan::NODES {
        right &= byte_at(bytes, HOLDS_AT + 3 * k) < 2;
    }
    right
}

#[tactic(auto, unfolding(crate::specs::States::is_master))]
fn is_master(bytes: &[u8]) -> bool
    ensures { result ≡ is_master bytes.now }
{
    (bytes.len() == LENGTH)
        & (byte_at(bytes, STATE_AT) < 3)
        & (byte_at(bytes, PHASE_AT) < 4)
        & (byte_at(bytes, PERMISSION_AT) < 2)
        & flags_right(bytes)
}

// The permission of a node.
pub fn hold_of(bytes: &[u8], node: u8) -> Hold
    ensures { result ≡ hold_of bytes.now node }
{
    // In 32 bits, which a controller multiplies by itself.
    let start = HOLDS_AT + ((3 * (node as u32)) as usize);
    Hold {
        held: byte_at(bytes, start) == 1,
        age: number_at(bytes, start + 1),
    }
}

// Not by `array::from_fn`: firmware/retarget.py refuses a closure that holds a slice.
fn holds_of(bytes: &[u8]) -> [Hold; Plan::NODES]
    ensures { result ≡ holds_of bytes.now }
{
    let mut holds = [Master::NO_HOLD; Plan::NODES];
    for k in 0..Plan::NODES as u8 {
        holds[k as usize] = hold_of(bytes, k);
    }
    holds
}

#[tactic(auto, unfolding(crate::specs::States::causes_of))]
fn master_from(bytes: &[u8]) -> Master
    ensures { result ≡ master_from bytes.now }
{
    Master {
        state: State::from(byte_at(bytes, STATE_AT)),
        phase: phase_of(byte_at(bytes, PHASE_AT)),
        permission: byte_at(bytes, PERMISSION_AT) == 1,
        holds: holds_of(bytes),
        causes: bytes_at(bytes, CAUSES_AT),
        counts: table_at(bytes, COUNTS_AT),
        delay: number_at(bytes, DELAY_AT),
        ticks: long_number(number_at(bytes, TICKS_AT), number_at(bytes, TICKS_AT + 2)),
    }
}

// Out of range under every plan.
fn master_out_of_range() -> Master
    ensures { result ≡ master_out_of_range }
{
    Master {
        delay: 1,
        ..Master::power_on(true)
    }
}

// The master of bytes; of bytes that are no state one that each step refuses as 11.
#[tactic(auto, unfolding(crate::specs::States::is_master))]
pub fn master_of(bytes: &[u8]) -> Master
    ensures { result ≡ master_of bytes.now }
{
    // A known length spares the tests of each byte.
    if bytes.len() == LENGTH && is_master(bytes) {
        master_from(bytes)
    } else {
        master_out_of_range()
    }
}
