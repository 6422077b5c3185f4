// The packed plan record: a plan as bytes and back, and the plan in a lent record judged and read where an event needs it, without a
// record being made. Bytes of another length are taken for the all-zero record.
#![tactic(auto, unfolding(set_plan::specs::Record::zero_plan))]

ghost use Rattle.std.specs.Prelude.{◌≡◌};
ghost use Rattle.base_refusals.specs.Numbers.{number_of};
ghost use Rattle.set_plan.specs.Answering.{is_polled};
ghost use Rattle.set_plan.specs.Find.{find_row, rising_row};
ghost use Rattle.set_plan.specs.Profile.{sleeps};
ghost use Rattle.set_plan.specs.Rules.{plan_refusal};
ghost use Rattle.set_record.specs.Record.{record_of};

use base_refusals::Refusal;
use fields::Record;
use set_plan::{Plan, Row, Times};

mod fields;
mod offsets;
mod packing;
mod rules;

pub use fields::times_at;
pub use offsets::{ENTRIES_AT, LENGTH, PROFILE_AT, ROWS_AT};
pub use packing::{bytes_of, put_filled, record_head, times_bytes};

// The first of the rules 3 to 8 that the plan breaks.
#[tactic(auto, unfolding(set_plan::specs::Record::zero_plan, set_plan::specs::Rules::plan_refusal))]
pub fn judge(bytes: &[u8]) -> Result<(), Refusal>
    ensures { number_of result ≡ plan_refusal (record_of bytes.now) }
{
    match Record::new(bytes) {
        Some(record) => record.judge(),
        None => Err(Refusal::WrongRevision),
    }
}

// The plan, whether or not it keeps the rules.
pub fn plan_of(bytes: &[u8]) -> Plan
    ensures { result ≡ record_of bytes.now }
{
    match Record::new(bytes) {
        Some(record) => record.plan(),
        None => Plan::zero(),
    }
}

pub fn revision_of(bytes: &[u8]) -> u16
    ensures { result ≡ (record_of bytes.now).revision }
{
    Record::new(bytes).map_or(0, |record| record.revision())
}

pub fn profile_of(bytes: &[u8]) -> u8
    ensures { result ≡ (record_of bytes.now).profile }
{
    Record::new(bytes).map_or(0, |record| record.profile())
}

// Whether the machines of the plan sleep.
pub fn sleeps(bytes: &[u8]) -> bool
    ensures { result ≡ sleeps (record_of bytes.now) }
{
    profile_of(bytes) == 0
}

pub fn row_count(bytes: &[u8]) -> u16
    ensures { result ≡ (record_of bytes.now).rowcount }
{
    Record::new(bytes).map_or(0, |record| record.row_count())
}

pub fn node_count(bytes: &[u8]) -> u8
    ensures { result ≡ (record_of bytes.now).nodecount }
{
    Record::new(bytes).map_or(0, |record| record.node_count())
}

pub fn times_of(bytes: &[u8]) -> Times
    ensures { result ≡ (record_of bytes.now).times }
{
    Record::new(bytes).map_or(Times::ZERO, |record| record.times())
}

// Whether a node is polled.
pub fn is_polled(bytes: &[u8], node: u8) -> bool
    ensures { result ≡ is_polled (record_of bytes.now) node }
{
    Record::new(bytes).is_some_and(|record| record.is_polled(node))
}

// The row of a ReqId.
pub fn row_of(bytes: &[u8], reqid: u8) -> Option<Row>
    ensures { result ≡ find_row (record_of bytes.now) reqid }
{
    Record::new(bytes).map_or(None, |record| record.find_row(reqid))
}

// The row of a ReqId where rows rise.
pub fn rising_row_of(bytes: &[u8], reqid: u8) -> Option<Row>
    ensures { result ≡ rising_row (record_of bytes.now) reqid }
{
    Record::new(bytes).map_or(None, |record| record.rising_row(reqid))
}
