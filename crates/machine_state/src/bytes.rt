// States, flags and tables of counts as bytes.
ghost use Rattle.std.specs.Prelude.{◌≡◌, ◌+◌};
ghost use Rattle.base_lists.specs.Bounded.{tab};
ghost use Rattle.base_bytes.specs.Bytes.{byte};
ghost use Rattle.machine_state.specs.Bytes.{state_byte, state_of, flag_byte, table_at};

use crate::State;
use base_bytes::reach;
use set_plan::Row;

// By its place in the enum: 0 Normal, 1 Standby, 2 Sleep.
impl From<State> for u8 {
    ghost from_gives = { λ state byte. byte ≡ state_byte state };

    fn from(state: State) -> u8 {
        state as u8
    }
}

// Sleep for a byte above 2.
impl From<u8> for State {
    ghost from_gives = { λ byte state. state ≡ state_of byte };

    fn from(byte: u8) -> State {
        match byte {
            0 => State::Normal,
            1 => State::Standby,
            _ => State::Sleep,
        }
    }
}

pub fn state_byte(state: State) -> u8
    ensures { result ≡ state_byte state }
{
    u8::from(state)
}

// The state of a byte; Sleep for one above 2.
pub fn state_of(byte: u8) -> State
    ensures { result ≡ state_of byte }
{
    State::from(byte)
}

pub fn flag_byte(flag: bool) -> u8
    ensures { result ≡ flag_byte flag }
{
    u8::from(flag)
}

// The bytes of some places from an offset on.
pub fn bytes_at<const N: usize>(bytes: &[u8], start: usize) -> [u8; N]
    ensures { result ≡ tab N (λ i. byte bytes.now (start + i)) }
{
    let within = reach(bytes.len(), start, N);
    let mut table = [0; N];
    for i in 0..within {
        table[i] = bytes[start + i];
    }
    table
}

// The table of a byte per ReqId from an offset on.
#[tactic(auto, unfolding(crate::specs::Bytes::table_at))]
pub fn table_at(bytes: &[u8], start: usize) -> [u8; Row::REQIDS]
    ensures { result ≡ table_at bytes.now start }
{
    bytes_at(bytes, start)
}
