// What master and node share: their states, a table of sequence counts by ReqId, and states, flags and such a table as bytes.
#![tactic(auto)]

ghost use Rattle.std.specs.Prelude.{◌≡◌, ◌≤◌, ltb, eqb, get_or, set};
ghost use Rattle.machine_state.specs.Counts.{counts_below};
ghost use Rattle.machine_state.specs.State.{is_normal, start_state};

use set_plan::Row;

mod bytes;

pub use bytes::{bytes_at, flag_byte, state_byte, state_of, table_at};

// The states of network management (ISO 20794-2, 9.3.2).
#[derive(Clone, Copy, PartialEq, Eq)]
pub enum State {
    Normal,
    Standby,
    Sleep,
}

pub fn is_normal(state: State) -> bool
    ensures { result ≡ is_normal state }
{
    matches!(state, State::Normal)
}

// The state at power-on.
pub fn start_state(sleeps: bool) -> State
    ensures { result ≡ start_state sleeps }
{
    if sleeps { State::Sleep } else { State::Normal }
}

// The count of a ReqId, 0 past the table.
pub fn count_of(counts: [u8; Row::REQIDS], reqid: u8) -> u8
    ensures { result ≡ get_or counts reqid 0 }
{
    if (reqid as usize) < Row::REQIDS {
        counts[reqid as usize]
    } else {
        0
    }
}

// The table with another count of a ReqId, as it is past the table.
pub fn with_count(mut counts: [u8; Row::REQIDS], reqid: u8, count: u8) -> [u8; Row::REQIDS]
    ensures { result ≡ set counts reqid count }
{
    if (reqid as usize) < Row::REQIDS {
        counts[reqid as usize] = count;
    }
    counts
}

// 0 where a count lies below a limit, 1 where it does not.
fn past(count: u8, limit: u8) -> u16
    ensures { (eqb result 0 ≡ ltb count limit) × (result ≤ 1) }
{
    ((count as u16) + 256 - (limit as u16)) / 256
}

// Whether every count lies below a limit. No exit and no test, so that a loop of vector instructions, or of three for a count, is compiled of it.
pub fn counts_below(counts: [u8; Row::REQIDS], limit: u8) -> bool
    ensures { result ≡ counts_below limit counts }
{
    let mut above: u16 = 0;
    for count in counts.iter() {
        above += past(*count, limit);
    }
    above == 0
}
