// The rules of a plan record, judged once for reader, writer and every step.
ghost use Rattle.std.specs.Prelude.{◌≡◌, ◌<◌, ℕ, List, length};
ghost use Rattle.base_lists.specs.Bounded.{all_to, tab};
ghost use Rattle.base_refusals.specs.Numbers.{number_of};
ghost use Rattle.set_plan.specs.Record.{entry_at};
ghost use Rattle.set_plan.specs.Rules.{between, times_right, entry_right, node_right, nodes_right, RowWord, row_after, row_right, rows_right, publishes, all_publish, plan_refusal};
ghost use Rattle.set_plan.specs.Profile.{profile_right};

use crate::{NodeEntry, Plan, Row, Times};
use base_refusals::Refusal;

pub fn between(least: u16, most: u16, x: u16) -> bool
    ensures { result ≡ between least most x }
{
    (least..=most).contains(&x)
}

pub fn profile_right(profile: u8) -> bool
    ensures { result ≡ profile_right profile }
{
    profile <= 1
}

pub fn times_right(t: Times) -> bool
    ensures { result ≡ times_right t }
{
    between(Times::LEAST, Times::MOST, t.window)
        & between(Times::LEAST, Times::MOST, t.stop)
        & between(Times::LEAST, Times::MOST, t.sleep)
        & between(Times::LEAST, Times::MOST, t.quiet)
        & between(Times::LEAST, Times::MOST, t.recovery)
        & between(Times::LEAST, Times::MOST, t.space)
        & between(Times::LEAST, Times::MOST, t.start)
        & (t.stop <= t.sleep)
}

pub fn entry_right(e: NodeEntry) -> bool
    ensures { result ≡ entry_right e }
{
    (1..=125).contains(&e.address)
        & (1..=3).contains(&e.class)
        & (e.method <= 1)
        & (e.reserved == 0)
}

// A byte as an index of a table of 256.
pub fn table_index(k: u8) -> usize
    ensures { (result ≡ k) × (result < 256) }
{
    k as usize
}

// Whether each node's entry is right and its address none of those before, where entry k is that of node k. The addresses so far are marked,
// so that each is looked up once. Counted in 32 bits, which a small controller has in one register.
fn each_node_right<E: Fn(u32) -> NodeEntry>(count: u32, entry: E) -> bool
    requires { (k : ℕ) → k < count → E.pre entry k }
    ensures { (nodes : List NodeEntry)
        → ((k : ℕ) (e : NodeEntry) → k < count → E.post entry k e → e ≡ entry_at nodes k)
        → result ≡ all_to (node_right nodes) count }
{
    let mut taken = [false; 256];
    for k in 0..count {
        let entry = entry(k);
        let address = usize::from(entry.address);
        if !entry_right(entry) || taken[address] {
            return false;
        }
        taken[address] = true;
    }
    true
}

fn nodes_right(p: Plan) -> bool
    ensures { result ≡ nodes_right p }
{
    (1..=Plan::NODES).contains(&usize::from(p.nodecount))
        && each_node_right(u32::from(p.nodecount), |k| p.nodes[k as usize])
}

// A row as one number, since its four bytes are then loaded at once and judged beside those of other rows.
fn row_word(row: Row) -> u32
    ensures { RowWord row result }
{
    u32::from_le_bytes([row.reqid, row.publisher, row.length, row.kind])
}

pub fn row_after(nodecount: u8, before: u8, row: Row) -> bool
    ensures { result ≡ row_after nodecount before row }
{
    let word = row_word(row);
    let reqid = word % 256;
    let publisher = word / 256 % 256;
    ((before as u32) < reqid)
        & (reqid < (Row::REQIDS as u32))
        & ((publisher + 1) % 256 <= (nodecount as u32))
        & (word / 16777216 <= 3)
}

// No exit, so that the loop is compiled to vector instructions.
fn each_row_right(nodecount: u8, rows: &[Row]) -> bool
    ensures { result ≡ all_to (row_right nodecount rows.now) (length rows.now) }
{
    let mut right = true;
    let mut before = 0;
    for row in rows {
        right &= row_after(nodecount, before, *row);
        before = row.reqid;
    }
    right
}

fn rows_right(p: Plan) -> bool
    ensures { result ≡ rows_right p }
{
    (1..=Plan::ROWS).contains(&usize::from(p.rowcount))
        && each_row_right(p.nodecount, p.rows_in_use())
}

// Which numbers publish one of the rows, in one pass over them.
fn publishers(rows: &[Row]) -> [bool; 256]
    ensures { result ≡ tab 256 (publishes rows.now (length rows.now)) }
{
    let mut seen = [false; 256];
    for row in rows {
        seen[usize::from(row.publisher)] = true;
    }
    seen
}

fn all_publish(p: Plan) -> bool
    ensures { result ≡ all_publish p }
{
    let seen = publishers(p.rows_in_use());
    seen[..usize::from(p.nodecount)].iter().all(|seen| *seen)
}

// The first of the rules 3 to 8 that a record breaks.
#[tactic(auto, unfolding(crate::specs::Rules::plan_refusal))]
pub fn judge(p: Plan) -> Result<(), Refusal>
    ensures { number_of result ≡ plan_refusal p }
{
    let times = p.times;
    Refusal::WrongBlock.unless(profile_right(p.profile))?;
    Refusal::WrongRevision.unless(p.revision != 0)?;
    Refusal::WrongTime.unless(times_right(times))?;
    Refusal::WrongNode.unless(nodes_right(p))?;
    Refusal::WrongRow.unless(rows_right(p))?;
    Refusal::NoRowOfNode.unless(all_publish(p))
}
