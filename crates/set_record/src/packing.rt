// A plan as a packed record.
ghost use Rattle.std.specs.Prelude.{◌≡◌, ◌+◌, ◌-◌, length, replicate};
ghost use Rattle.std.proofs.lemmas.List.Edits.{sets};
ghost use Rattle.set_record.specs.Entries.{times_bytes, entry_bytes, row_bytes};
ghost use Rattle.set_record.specs.Record.{record_of, record_head, record_bytes};

use crate::offsets::{
    ENTRIES_AT, LENGTH, NODECOUNT_AT, PROFILE_AT, REVISION_AT, ROWCOUNT_AT, ROWS_AT, TIMES_AT,
};
use base_bytes::{put, put_zeros};
use set_plan::{NodeEntry, Plan, Row, Times};

// The times' bytes, in a set as in a packed record.
pub fn times_bytes(t: Times) -> [u8; 14]
    ensures { result ≡ times_bytes t }
{
    let [w0, w1] = t.window.to_be_bytes();
    let [d0, d1] = t.stop.to_be_bytes();
    let [s0, s1] = t.sleep.to_be_bytes();
    let [e0, e1] = t.quiet.to_be_bytes();
    let [r0, r1] = t.recovery.to_be_bytes();
    let [p0, p1] = t.space.to_be_bytes();
    let [c0, c1] = t.start.to_be_bytes();
    [w0, w1, d0, d1, s0, s1, e0, e1, r0, r1, p0, p1, c0, c1]
}

// The bytes before the entries.
pub fn record_head(revision: u16, nodecount: u8, rowcount: u16, times: Times) -> [u8; ENTRIES_AT]
    ensures { result ≡ record_head revision nodecount rowcount times }
{
    let mut head = [0; ENTRIES_AT];
    put(&mut head[..], REVISION_AT, &revision.to_be_bytes()[..]);
    head[NODECOUNT_AT] = nodecount;
    put(&mut head[..], ROWCOUNT_AT, &rowcount.to_be_bytes()[..]);
    put(&mut head[..], TIMES_AT as usize, &times_bytes(times)[..]);
    head
}

// Puts used entries or rows into a buffer from an offset on, and zeros over what they leave of so many bytes.
pub fn put_filled(buffer: &mut [u8], start: usize, used: &[u8], room: usize)
    ensures { buffer.new ≡ sets (sets buffer.old start used.now) (start + length used.now) (replicate (room - length used.now) 0) }
{
    put(buffer, start, used);
    put_zeros(
        buffer,
        start.saturating_add(used.len()),
        room.saturating_sub(used.len()),
    );
}

fn entry_bytes(e: NodeEntry) -> [u8; 4]
    ensures { result ≡ entry_bytes e }
{
    [e.address, e.class, e.method, e.reserved]
}

fn row_bytes(r: Row) -> [u8; 4]
    ensures { result ≡ row_bytes r }
{
    [r.reqid, r.publisher, r.length, r.kind]
}

// The packed record of a plan, whether or not it keeps the rules.
pub fn bytes_of(p: Plan) -> [u8; LENGTH]
    ensures { (result ≡ record_bytes p) × (record_of result ≡ p) }
{
    let head = record_head(p.revision, p.nodecount, p.rowcount, p.times);
    let nodes = p.nodes.map(entry_bytes);
    let rows = p.rows.map(row_bytes);
    let mut bytes = [0; LENGTH];
    put(&mut bytes[..], 0, &head[..]);
    put(&mut bytes[..], ENTRIES_AT, nodes.as_flattened());
    put(&mut bytes[..], ROWS_AT, rows.as_flattened());
    bytes[PROFILE_AT] = p.profile;
    bytes
}
