// The plan record of a release set. Every value is a number that can hold a wrong one, so that a wrong record is refused and not impossible.
#![tactic(auto)]

ghost use Rattle.std.specs.Prelude.{◌≡◌, length, take};
ghost use Rattle.set_plan.specs.Record.{zero_plan, rows_used};
ghost use Rattle.set_plan.specs.Answering.{is_polled, is_counted, is_variable, accepts};
ghost use Rattle.set_plan.specs.Profile.{sleeps};

mod find;
mod rules;

pub use find::find_row;
pub use rules::{between, entry_right, judge, profile_right, row_after, table_index, times_right};

#[derive(Clone, Copy)]
pub struct NodeEntry {
    pub address: u8,
    // diagnostic class, 1 to 3
    pub class: u8,
    // 0 event-triggered, 1 polled
    pub method: u8,
    // the entry's fourth byte, 0
    pub reserved: u8,
}

#[derive(Clone, Copy)]
pub struct Row {
    pub reqid: u8,
    // a node number, or 255 for the master
    pub publisher: u8,
    pub length: u8,
    // the row's last byte: 1 with a sequence count, 0 without
    pub kind: u8,
}

// Times in ticks of 1 ms.
#[derive(Clone, Copy)]
pub struct Times {
    // W: how long a permission is held
    pub window: u16,
    // D: clock stop, after the sleep message was sent
    pub stop: u16,
    // S: node sleep, after the sleep message was received
    pub sleep: u16,
    // E: quiet limit, without clock
    pub quiet: u16,
    // R: wake-up recovery, from one wake-up pulse to the next
    pub recovery: u16,
    // P: wake-up space, until a woken node gives up
    pub space: u16,
    // C: clock start, after a wake-up
    pub start: u16,
}

#[derive(Clone, Copy)]
pub struct Plan {
    pub revision: u16,
    // 1 for panels whose power the ignition cuts, 0 otherwise
    pub profile: u8,
    pub nodecount: u8,
    pub times: Times,
    pub nodes: [NodeEntry; Plan::NODES],
    pub rowcount: u16,
    pub rows: [Row; Plan::ROWS],
}

// What an unused place of a record holds.
impl NodeEntry {
    pub const ZERO: NodeEntry = NodeEntry {
        address: 0,
        class: 0,
        method: 0,
        reserved: 0,
    };
}

impl Times {
    // Ticks of each time.
    pub const LEAST: u16 = 1;

    pub const MOST: u16 = 30000;

    pub const ZERO: Times = Times {
        window: 0,
        stop: 0,
        sleep: 0,
        quiet: 0,
        recovery: 0,
        space: 0,
        start: 0,
    };
}

impl Row {
    // ReqIds lie below this.
    pub const REQIDS: usize = 128;
    // Sequence counts lie below this and follow each other modulo it.
    pub const COUNTS: u8 = 4;

    pub const ZERO: Row = Row {
        reqid: 0,
        publisher: 0,
        length: 0,
        kind: 0,
    };

    // Whether the row carries a sequence count.
    pub fn is_counted(self) -> bool
        ensures { result ≡ is_counted self }
    {
        self.kind % 2 == 1
    }

    // Whether an answer of the row may be shorter than it.
    pub fn is_variable(self) -> bool
        ensures { result ≡ is_variable self }
    {
        2 <= self.kind
    }

    // Whether an answer of a length is one that the row accepts.
    pub fn accepts(self, length: u16) -> bool
        ensures { result ≡ accepts self length }
    {
        if self.is_variable() {
            length <= (self.length as u16)
        } else {
            length == (self.length as u16)
        }
    }
}

impl Plan {
    // Nodes at most, and places for them.
    pub const NODES: usize = 16;
    // Rows at most, and places for them.
    pub const ROWS: usize = 127;
    // Rows at most in a message block.
    pub const BLOCK_ROWS: u16 = 100;
    // The publisher's number of a row of the master.
    pub const MASTER: u8 = 255;

    // Whether the panels sleep and wake: those whose power the ignition cuts never do.
    pub fn sleeps(self) -> bool
        ensures { result ≡ sleeps self }
    {
        self.profile == 0
    }

    // Whether a node is polled.
    pub fn is_polled(self, node: u8) -> bool
        ensures { result ≡ is_polled self node }
    {
        self.nodes
            .get(usize::from(node))
            .is_some_and(|entry| entry.method == 1)
    }

    // The rows that the record counts and has places for.
    pub(crate) fn rows_in_use(&self) -> &[Row]
        ensures { (result.now ≡ take (rows_used self.now.rowcount) self.now.rows) × (length result.now ≡ rows_used self.now.rowcount) }
    {
        &self.rows[..usize::from(self.rowcount).min(Plan::ROWS)]
    }

    // The record that a refused read gives.
    pub fn zero() -> Plan
        ensures { result ≡ zero_plan }
    {
        let times = Times::ZERO;
        let nodes = [NodeEntry::ZERO; Plan::NODES];
        let rows = [Row::ZERO; Plan::ROWS];
        Plan {
            revision: 0,
            profile: 0,
            nodecount: 0,
            times,
            nodes,
            rowcount: 0,
            rows,
        }
    }
}
