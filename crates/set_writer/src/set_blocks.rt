// The blocks of a packed record's set, put into a buffer span by span.
ghost use Rattle.std.specs.Prelude.{◌≡◌, ◌++◌, ◌+◌, ◌*◌, ◌-◌, ◌≤◌, ◌<◌, length, drop};
ghost use Rattle.base_lists.specs.Bounded.{tab};
ghost use Rattle.base_bytes.specs.Bytes.{byte};
ghost use Rattle.base_bytes.specs.Puts.{Put};
ghost use Rattle.base_bytes.specs.Limits.{block_length};
ghost use Rattle.set_plan.specs.Limits.{max_nodes, max_rows, block_rows};
ghost use Rattle.set_record.specs.Offsets.{record_length};
ghost use Rattle.set_record.specs.Record.{record_of};
ghost use Rattle.set_writer.specs.Write.{plan_head, rows_in_block, message_head, message_byte, data_byte, set_length, with_check, with_checks};

use base_bytes::{BLOCK_LENGTH, block_check, put};
use set_plan::Plan;
use set_reader::{CHECK_AT, ENTRIES_AT, LONG_LENGTH, ROWS_AT, SHORT_LENGTH, TIMES_AT};
use set_record::{put_filled, times_bytes};

fn plan_head(plan: &[u8]) -> [u8; ENTRIES_AT]
    ensures { result ≡ plan_head (record_of plan.now) }
{
    let [v0, v1] = set_record::revision_of(plan).to_be_bytes();
    let start = [
        0x50,
        1,
        v0,
        v1,
        set_record::node_count(plan),
        set_record::profile_of(plan),
    ];
    let times = times_bytes(set_record::times_of(plan));
    let mut head = [0; ENTRIES_AT];
    put(&mut head[..], 0, &start[..]);
    put(&mut head[..], TIMES_AT as usize, &times[..]);
    head
}

// Rows in message block b, 1 or 2.
fn rows_in_block(count: u16, b: usize) -> u16
    requires { (1 ≤ b) × (b < 3) × (count ≤ max_rows) }
    ensures { (result ≡ rows_in_block count b) × (result ≤ block_rows) × (block_rows * (b - 1) + result ≤ max_rows) }
{
    let first = count.min(Plan::BLOCK_ROWS);
    if b == 1 { first } else { count - first }
}

fn message_head(revision: u16, rowcount: u16, b: usize) -> [u8; ROWS_AT]
    requires { (1 ≤ b) × (b < 3) × (rowcount ≤ max_rows) }
    ensures { result ≡ message_head revision (rows_in_block rowcount b) }
{
    let [v0, v1] = revision.to_be_bytes();
    let rows = rows_in_block(rowcount, b);
    [0x4d, 1, v0, v1, rows as u8, 0, 0, 0]
}

// Puts block b: its head, its entries or rows, zeros.
fn put_block(buffer: &mut [u8], b: usize, head: &[u8], used: &[u8])
    requires { (length head.now + length used.now ≤ block_length) × (block_length * b + block_length ≤ length buffer.old) }
    ensures { Put (block_length * b) block_length (byte (head.now ++ used.now)) buffer.old buffer.new }
{
    let start = BLOCK_LENGTH * b;
    put(buffer, start, head);
    put_filled(buffer, start + head.len(), used, BLOCK_LENGTH - head.len());
}

fn put_plan(plan: &[u8], buffer: &mut [u8])
    requires { (length plan.now ≡ record_length) × ((record_of plan.now).nodecount ≤ max_nodes) × (block_length ≤ length buffer.old) }
    ensures { Put 0 block_length (data_byte (record_of plan.now)) buffer.old buffer.new }
{
    let end = set_record::ENTRIES_AT + 4 * usize::from(set_record::node_count(plan));
    put_block(
        buffer,
        0,
        &plan_head(plan)[..],
        &plan[set_record::ENTRIES_AT..end],
    );
}

fn put_message(plan: &[u8], buffer: &mut [u8], b: usize)
    requires { (length plan.now ≡ record_length) × ((record_of plan.now).rowcount ≤ max_rows) × (1 ≤ b) × (b < 3) × (block_length * b + block_length ≤ length buffer.old) }
    ensures { Put (block_length * b) block_length (message_byte (record_of plan.now) b) buffer.old buffer.new }
{
    let rowcount = set_record::row_count(plan);
    let first = set_record::ROWS_AT + 4 * (Plan::BLOCK_ROWS as usize) * (b - 1);
    let end = first + 4 * usize::from(rows_in_block(rowcount, b));
    let head = message_head(set_record::revision_of(plan), rowcount, b);
    put_block(buffer, b, &head[..], &plan[first..end]);
}

// Puts every byte of the set but the checks, which are left 0.
pub(crate) fn put_data(plan: &[u8], buffer: &mut [u8])
    requires { (length plan.now ≡ record_length) × (set_length (record_of plan.now).rowcount ≤ length buffer.old) × ((record_of plan.now).nodecount ≤ max_nodes) × ((record_of plan.now).rowcount ≤ max_rows) }
    ensures { buffer.new ≡ tab (set_length (record_of plan.now).rowcount) (data_byte (record_of plan.now)) ++ drop (set_length (record_of plan.now).rowcount) buffer.old }
{
    put_plan(plan, buffer);
    put_message(plan, buffer, 1);
    if Plan::BLOCK_ROWS < set_record::row_count(plan) {
        put_message(plan, buffer, 2);
    }
}

fn put_check(buffer: &mut [u8], b: usize)
    requires { (b < 3) × (block_length * b + block_length ≤ length buffer.old) }
    ensures { buffer.new ≡ with_check buffer.old b }
{
    let at = BLOCK_LENGTH * b + CHECK_AT;
    let [high, low] = block_check(&buffer[..], BLOCK_LENGTH * b).to_be_bytes();
    buffer[at] = high;
    buffer[at + 1] = low;
}

pub(crate) fn set_length(rowcount: u16) -> usize
    ensures { result ≡ set_length rowcount }
{
    if rowcount <= Plan::BLOCK_ROWS {
        SHORT_LENGTH
    } else {
        LONG_LENGTH
    }
}

pub(crate) fn put_checks(rowcount: u16, buffer: &mut [u8])
    requires { set_length rowcount ≤ length buffer.old }
    ensures { buffer.new ≡ with_checks rowcount buffer.old }
{
    put_check(buffer, 0);
    put_check(buffer, 1);
    if Plan::BLOCK_ROWS < rowcount {
        put_check(buffer, 2);
    }
}
