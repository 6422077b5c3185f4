// A move of a record of 16 bytes.
ghost use Rattle.std.specs.Prelude.{◌≡◌, ◌<◌};
ghost use Rattle.set_plan.specs.Limits.{max_nodes};
ghost use Rattle.bus_moves.specs.Decoding.{bit_of, flags, act_of, damage_of, fate_of, bus_of, move_of, has_flag, is_move};

use crate::MOVE_LENGTH;
use base_bytes::{byte_at, number_at};
use bus::{Act, Bus, Damage, Fate, Move};
use set_plan::Plan;
use std::array;

// Whether node i is in a set of nodes, bit 0 the lowest.
fn flag_at(mask: u16, i: usize) -> bool
    requires { i < max_nodes }
    ensures { result ≡ bit_of mask i }
{
    (mask >> i) % 2 == 1
}

// A set of nodes, node 0 first.
fn flags(mask: u16) -> [bool; Plan::NODES]
    ensures { result ≡ flags mask }
{
    array::from_fn(|i| flag_at(mask, i))
}

fn act_of(kind: u8, node: u8, value: u8) -> Act
    ensures { result ≡ act_of kind node value }
{
    match kind {
        0 => Act::Tick,
        1 => Act::NodeWakeAsk(node),
        2 => Act::MasterWakeAsk,
        3 => Act::NodePermission {
            node,
            permitted: value == 1,
        },
        4 => Act::MasterPermission(value == 1),
        5 => Act::Request(value),
        6 => Act::SendAsk { node, reqid: value },
        7 => Act::SleepAsk,
        _ => Act::SendResult(value == 1),
    }
}

fn damage_of(bytes: &[u8]) -> Damage
    ensures { result ≡ damage_of bytes.now }
{
    Damage {
        result: number_at(bytes, 9),
        length: number_at(bytes, 11),
        count: byte_at(bytes, 13),
        permission: byte_at(bytes, 14) == 1,
        wake: byte_at(bytes, 15) == 1,
    }
}

fn fate_of(fate: u8, damage: Damage) -> Fate
    ensures { result ≡ fate_of fate damage }
{
    match fate {
        0 => Fate::Whole(damage.length),
        1 => Fate::Damaged(damage),
        _ => Fate::Lost,
    }
}

fn bus_of(bytes: &[u8]) -> Bus
    ensures { result ≡ bus_of bytes.now }
{
    Bus {
        reached: flags(number_at(bytes, 4)),
        hearing: flags(number_at(bytes, 6)),
        master: byte_at(bytes, 8) == 1,
        fate: fate_of(byte_at(bytes, 3), damage_of(bytes)),
    }
}

// The move of a record; of bytes that are none, what stands at its places.
pub fn move_of(bytes: &[u8]) -> Move
    ensures { result ≡ move_of bytes.now }
{
    Move {
        act: act_of(byte_at(bytes, 0), byte_at(bytes, 1), byte_at(bytes, 2)),
        bus: bus_of(bytes),
    }
}

fn has_flag(kind: u8) -> bool
    ensures { result ≡ has_flag kind }
{
    matches!(kind, 3 | 4 | 8)
}

// Whether bytes are the record of a move.
pub fn is_move(bytes: &[u8]) -> bool
    ensures { result ≡ is_move bytes.now }
{
    let kind = byte_at(bytes, 0);
    (bytes.len() == MOVE_LENGTH)
        & (kind <= 8)
        & !(has_flag(kind) & (1 < byte_at(bytes, 2)))
        & (byte_at(bytes, 3) <= 2)
        & (byte_at(bytes, 8) <= 1)
        & (byte_at(bytes, 14) <= 1)
        & (byte_at(bytes, 15) <= 1)
}
