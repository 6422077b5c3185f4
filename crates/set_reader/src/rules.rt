// The rules of a set's bytes, in the order of their numbers.
ghost use Rattle.std.specs.Prelude.{◌≡◌, true, ◌≤◌, ◌<◌};
ghost use Rattle.base_lists.specs.Bounded.{all_to, if_else};
ghost use Rattle.base_lists.specs.FirstBroken.{first_broken};
ghost use Rattle.base_refusals.specs.Numbers.{number, number_of};
ghost use Rattle.set_plan.specs.Profile.{profile_right};
ghost use Rattle.set_plan.specs.Rules.{between, plan_refusal};
ghost use Rattle.base_bytes.specs.Limits.{block_length};
ghost use Rattle.set_reader.specs.Layout.{plan_of};
ghost use Rattle.set_reader.specs.Rules.{length_right, check_right, checks_right, block_type, type_right, types_right, revision_same, revisions_same, counts_right, filler_at, message_filler_at, filler_right, FillerStart, shape_rules, content_rules};

use crate::offsets::{
    CHECK_AT, ENTRIES_AT, FIRST_ROWCOUNT_AT, LONG_LENGTH, NODECOUNT_AT, PROFILE_AT, REVISION_AT,
    ROWCOUNT_AT, ROWS_AT, SECOND_ROWCOUNT_AT, SHORT_LENGTH,
};
use base_bytes::{BLOCK_LENGTH, are_zero, block_check, byte_at, number_at};
use base_refusals::Refusal;
use set_plan::{Plan, between};

fn length_right(s: &[u8]) -> bool
    ensures { result ≡ length_right s.now }
{
    (s.len() == SHORT_LENGTH) | (s.len() == LONG_LENGTH)
}

fn check_right(s: &[u8], b: usize) -> bool
    requires { b < 3 }
    ensures { result ≡ check_right s.now b }
{
    block_check(s, BLOCK_LENGTH * b) == number_at(s, BLOCK_LENGTH * b + CHECK_AT)
}

// The first wrong check ends it: checks are most of a read's time. Block by block, here and below, since firmware/retarget.py refuses a closure
// that holds a slice.
fn checks_right(s: &[u8]) -> bool
    ensures { result ≡ checks_right s.now }
{
    if !check_right(s, 0) {
        return false;
    }
    if !check_right(s, 1) {
        return false;
    }
    if s.len() == SHORT_LENGTH {
        return true;
    }
    check_right(s, 2)
}

fn block_type(b: usize) -> u8
    ensures { result ≡ block_type b }
{
    if b == 0 { 0x50 } else { 0x4d }
}

fn type_right(s: &[u8], b: usize) -> bool
    requires { b < 3 }
    ensures { result ≡ type_right s.now b }
{
    (byte_at(s, BLOCK_LENGTH * b) == block_type(b)) & (byte_at(s, BLOCK_LENGTH * b + 1) == 1)
}

fn types_right(s: &[u8]) -> bool
    ensures { result ≡ types_right s.now }
{
    type_right(s, 0) & type_right(s, 1) & ((s.len() == SHORT_LENGTH) | type_right(s, 2))
}

// Rules 1 to 3, which need no record.
#[tactic(auto, unfolding(crate::specs::Rules::shape_rules))]
pub(crate) fn judge_shape(s: &[u8]) -> Result<(), Refusal>
    ensures { number_of result ≡ first_broken 1 (shape_rules s.now) }
{
    Refusal::WrongSize.unless(length_right(s))?;
    Refusal::WrongCheck.unless(checks_right(s))?;
    Refusal::WrongBlock.unless(types_right(s) & set_plan::profile_right(byte_at(s, PROFILE_AT)))
}

fn revision_same(s: &[u8], b: usize) -> bool
    requires { b < 3 }
    ensures { result ≡ revision_same s.now b }
{
    number_at(s, BLOCK_LENGTH * b + REVISION_AT) == number_at(s, REVISION_AT)
}

fn revisions_same(s: &[u8]) -> bool
    ensures { result ≡ revisions_same s.now }
{
    revision_same(s, 0) & revision_same(s, 1) & ((s.len() == SHORT_LENGTH) | revision_same(s, 2))
}

fn counts_right(s: &[u8]) -> bool
    ensures { result ≡ counts_right s.now }
{
    let first = byte_at(s, FIRST_ROWCOUNT_AT) as u16;
    let second = byte_at(s, SECOND_ROWCOUNT_AT) as u16;
    between(1, Plan::BLOCK_ROWS, first)
        & ((s.len() == SHORT_LENGTH)
            | (first == Plan::BLOCK_ROWS) & between(1, Plan::BLOCK_ROWS, second))
}

// Where the filler behind some entries of 4 bytes starts.
fn filler_start(first: usize, count: u8) -> usize
    requires { first ≤ 510 }
    ensures { FillerStart first count result }
{
    (first + 4 * (count as usize)).min(CHECK_AT)
}

fn plan_filler(s: &[u8]) -> bool
    ensures { result ≡ all_to (filler_at s.now) block_length }
{
    let start = filler_start(ENTRIES_AT, byte_at(s, NODECOUNT_AT));
    are_zero(s, 20, 12) & are_zero(s, start, (CHECK_AT - start) as u32)
}

fn message_filler(s: &[u8], b: usize) -> bool
    requires { (1 ≤ b) × (b < 3) }
    ensures { result ≡ all_to (message_filler_at s.now b) block_length }
{
    let start = filler_start(ROWS_AT, byte_at(s, BLOCK_LENGTH * b + ROWCOUNT_AT));
    are_zero(s, BLOCK_LENGTH * b + 5, 3)
        & are_zero(s, BLOCK_LENGTH * b + start, (CHECK_AT - start) as u32)
}

fn filler_right(s: &[u8]) -> bool
    requires { length_right s.now ≡ true }
    ensures { result ≡ filler_right s.now }
{
    if s.len() == SHORT_LENGTH {
        plan_filler(s) & message_filler(s, 1)
    } else {
        plan_filler(s) & message_filler(s, 1) & message_filler(s, 2)
    }
}

// The refusal where a block's row count is wrong: the plan's own 4 to 6 come before 7.
fn with_wrong_count(judged: Result<(), Refusal>) -> Refusal
    ensures { number result ≡ if_else (between 4 6 (number_of judged)) (number_of judged) 7 }
{
    match judged {
        Err(Refusal::WrongRevision) => Refusal::WrongRevision,
        Err(Refusal::WrongTime) => Refusal::WrongTime,
        Err(Refusal::WrongNode) => Refusal::WrongNode,
        _ => Refusal::WrongRow,
    }
}

// Rules 4 to 9, of the bytes and their record, of which the judgement by the plan's rules is known.
pub(crate) fn judge_content(s: &[u8], judged: Result<(), Refusal>) -> Result<(), Refusal>
    requires { (length_right s.now ≡ true) × (profile_right (plan_of s.now).profile ≡ true) × (number_of judged ≡ plan_refusal (plan_of s.now)) }
    ensures { number_of result ≡ first_broken 4 (content_rules s.now (plan_of s.now)) }
{
    Refusal::WrongRevision.unless(revisions_same(s))?;
    if !counts_right(s) {
        return Err(with_wrong_count(judged));
    }
    judged?;
    Refusal::Filler.unless(filler_right(s))
}
