// The packed plan record of a set's bytes, whether or not they keep the rules.
ghost use Rattle.std.specs.Prelude.{◌≡◌, true, ◌++◌, ◌*◌, ◌≤◌, length, drop};
ghost use Rattle.base_bytes.specs.Bytes.{byte, number};
ghost use Rattle.base_bytes.specs.Puts.{Put};
ghost use Rattle.set_plan.specs.Limits.{max_nodes, max_rows};
ghost use Rattle.set_record.specs.Entries.{times_from, entry_byte_at, row_byte_at};
ghost use Rattle.set_record.specs.Offsets.{entries_at, rows_at, record_length};
ghost use Rattle.set_record.specs.Record.{record_head, record_bytes};
ghost use Rattle.set_reader.specs.Layout.{entries_of, rowcount_of, rows_of, plan_of};
ghost use Rattle.set_reader.specs.Rules.{length_right};

use crate::offsets::{
    ENTRIES_AT, FIRST_ROWCOUNT_AT, FIRST_ROWS_AT, NODECOUNT_AT, PROFILE_AT, REVISION_AT,
    SECOND_ROWCOUNT_AT, SECOND_ROWS_AT, SHORT_LENGTH, TIMES_AT,
};
use base_bytes::{byte_at, number_at, put};
use set_plan::Plan;
use set_record::{put_filled, times_at};

fn rowcount_of(s: &[u8]) -> u16
    ensures { result ≡ rowcount_of s.now }
{
    if s.len() == SHORT_LENGTH {
        byte_at(s, FIRST_ROWCOUNT_AT) as u16
    } else {
        Plan::BLOCK_ROWS + byte_at(s, SECOND_ROWCOUNT_AT) as u16
    }
}

fn head_of(s: &[u8]) -> [u8; set_record::ENTRIES_AT]
    ensures { result ≡ record_head (number s.now 2) (byte s.now 4) (rowcount_of s.now) (times_from s.now 6) }
{
    set_record::record_head(
        number_at(s, REVISION_AT),
        byte_at(s, NODECOUNT_AT),
        rowcount_of(s),
        times_at(s, TIMES_AT),
    )
}

fn put_entries(s: &[u8], buffer: &mut [u8])
    requires { (length_right s.now ≡ true) × (record_length ≤ length buffer.old) }
    ensures { Put entries_at (4 * max_nodes) (entry_byte_at (entries_of s.now (byte s.now 4))) buffer.old buffer.new }
{
    let end = 4 * (byte_at(s, NODECOUNT_AT) as usize).min(Plan::NODES);
    let used = &s[ENTRIES_AT..ENTRIES_AT + end];
    put_filled(buffer, set_record::ENTRIES_AT, used, 4 * Plan::NODES);
}

fn put_rows(s: &[u8], count: usize, buffer: &mut [u8])
    requires { (length_right s.now ≡ true) × (count ≡ rowcount_of s.now) × (record_length ≤ length buffer.old) }
    ensures { Put rows_at (4 * max_rows) (row_byte_at (rows_of s.now count)) buffer.old buffer.new }
{
    let end = 4 * count.min(Plan::BLOCK_ROWS as usize);
    let first = &s[FIRST_ROWS_AT..FIRST_ROWS_AT + end];
    if s.len() == SHORT_LENGTH {
        put_filled(buffer, set_record::ROWS_AT, first, 4 * Plan::ROWS);
        return;
    }
    let more = 4 * count.min(Plan::ROWS) - end;
    let second = &s[SECOND_ROWS_AT..SECOND_ROWS_AT + more];
    put(buffer, set_record::ROWS_AT, first);
    put_filled(
        buffer,
        set_record::ROWS_AT + end,
        second,
        4 * Plan::ROWS - end,
    );
}

pub(crate) fn put_record(s: &[u8], buffer: &mut [u8])
    requires { (length_right s.now ≡ true) × (record_length ≤ length buffer.old) }
    ensures { buffer.new ≡ record_bytes (plan_of s.now) ++ drop record_length buffer.old }
{
    let head = head_of(s);
    put(buffer, 0, &head[..]);
    put_entries(s, buffer);
    put_rows(s, rowcount_of(s) as usize, buffer);
    buffer[set_record::PROFILE_AT] = byte_at(s, PROFILE_AT);
}
