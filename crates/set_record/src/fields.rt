// A plan in the bytes of its packed record, read where it lies.
ghost use Rattle.std.specs.Prelude.{◌≡◌, ◌≢◌, MatchOption, ◌≤◌, ◌<◌, length};
ghost use Rattle.set_plan.specs.Answering.{is_polled};
ghost use Rattle.set_plan.specs.Find.{find_row, rising_row};
ghost use Rattle.set_plan.specs.Limits.{max_nodes, max_rows};
ghost use Rattle.set_plan.specs.Record.{zero_plan, entry_at, row_at, rows_used};
ghost use Rattle.set_record.specs.Entries.{times_from};
ghost use Rattle.set_record.specs.Offsets.{record_length};
ghost use Rattle.set_record.specs.Record.{record_of, plan_in};

use crate::offsets::{
    ENTRIES_AT, LENGTH, NODECOUNT_AT, PROFILE_AT, REVISION_AT, ROWCOUNT_AT, ROWS_AT, TIMES_AT,
};
use base_bytes::number_at;
use set_plan::{NodeEntry, Plan, Row, Times};
use std::array;

// The times from an offset on, in a packed record as in a set.
pub fn times_at(bytes: &[u8], offset: u8) -> Times
    ensures { result ≡ times_from bytes.now offset }
{
    let o = offset as usize;
    Times {
        window: number_at(bytes, o),
        stop: number_at(bytes, o + 2),
        sleep: number_at(bytes, o + 4),
        quiet: number_at(bytes, o + 6),
        recovery: number_at(bytes, o + 8),
        space: number_at(bytes, o + 10),
        start: number_at(bytes, o + 12),
    }
}

// Bytes of a record's length. Passed by value: firmware/retarget.py follows no pointer behind the address of a local.
#[derive(Clone, Copy)]
pub(crate) struct Record<'a> {
    bytes: &'a [u8],
    ghost packed: { length bytes.now ≡ record_length },
}

impl<'a> Record<'a> {
    pub(crate) fn new(bytes: &'a [u8]) -> Option<Record<'a>>
        ensures { MatchOption result ((length bytes.now ≢ record_length) × (record_of bytes.now ≡ zero_plan))
            (λ r. (length bytes.now ≡ record_length) × (record_of bytes.now ≡ plan_in r.bytes.now)) }
    {
        if bytes.len() == LENGTH {
            Some(Record { bytes })
        } else {
            None
        }
    }

    pub(crate) fn revision(self) -> u16
        ensures { result ≡ (plan_in self.entry.bytes.now).revision }
    {
        number_at(self.bytes, REVISION_AT)
    }

    pub(crate) fn profile(self) -> u8
        ensures { result ≡ (plan_in self.entry.bytes.now).profile }
    {
        self.bytes[PROFILE_AT]
    }

    pub(crate) fn times(self) -> Times
        ensures { result ≡ (plan_in self.entry.bytes.now).times }
    {
        times_at(self.bytes, TIMES_AT)
    }

    pub(crate) fn node_count(self) -> u8
        ensures { result ≡ (plan_in self.entry.bytes.now).nodecount }
    {
        self.bytes[NODECOUNT_AT]
    }

    pub(crate) fn row_count(self) -> u16
        ensures { result ≡ (plan_in self.entry.bytes.now).rowcount }
    {
        number_at(self.bytes, ROWCOUNT_AT)
    }

    pub(crate) fn entry(self, k: u32) -> NodeEntry
        requires { k < max_nodes }
        ensures { result ≡ entry_at (plan_in self.entry.bytes.now).nodes k }
    {
        let o = (ENTRIES_AT as u32 + 4 * k) as usize;
        NodeEntry {
            address: self.bytes[o],
            class: self.bytes[o + 1],
            method: self.bytes[o + 2],
            reserved: self.bytes[o + 3],
        }
    }

    pub(crate) fn row(self, j: u32) -> Row
        requires { j < max_rows }
        ensures { result ≡ row_at (plan_in self.entry.bytes.now).rows j }
    {
        let o = (ROWS_AT as u32 + 4 * j) as usize;
        Row {
            reqid: self.bytes[o],
            publisher: self.bytes[o + 1],
            length: self.bytes[o + 2],
            kind: self.bytes[o + 3],
        }
    }

    pub(crate) fn plan(self) -> Plan
        ensures { result ≡ plan_in self.entry.bytes.now }
    {
        Plan {
            revision: self.revision(),
            profile: self.profile(),
            nodecount: self.node_count(),
            times: self.times(),
            nodes: array::from_fn(move |k| self.entry(k as u32)),
            rowcount: self.row_count(),
            rows: array::from_fn(move |j| self.row(j as u32)),
        }
    }

    pub(crate) fn is_polled(self, node: u8) -> bool
        ensures { result ≡ is_polled (plan_in self.entry.bytes.now) node }
    {
        (node as usize) < Plan::NODES && self.entry(node as u32).method == 1
    }

    fn rows_used(self) -> u32
        ensures { (result ≡ rows_used (plan_in self.entry.bytes.now).rowcount) × (result ≤ max_rows) }
    {
        (self.row_count() as u32).min(Plan::ROWS as u32)
    }

    // The first row of a ReqId among the rows in use.
    pub(crate) fn find_row(self, reqid: u8) -> Option<Row>
        ensures { result ≡ find_row (plan_in self.entry.bytes.now) reqid }
    {
        for j in 0..self.rows_used() {
            let row = self.row(j);
            if row.reqid == reqid {
                return Some(row);
            }
        }
        None
    }

    // The last row of a ReqId among those whose place is below it: a few steps down, where rows rise.
    pub(crate) fn rising_row(self, reqid: u8) -> Option<Row>
        ensures { result ≡ rising_row (plan_in self.entry.bytes.now) reqid }
    {
        for j in (0..self.rows_used().min(reqid as u32)).rev() {
            let found = self.row(j);
            if found.reqid == reqid {
                return Some(found);
            }
        }
        None
    }
}
