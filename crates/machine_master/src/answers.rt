// Answers that reach the master.
ghost use Rattle.std.specs.Prelude.{◌≡◌};
ghost use Rattle.base_refusals.specs.Numbers.{number};
ghost use Rattle.machine_master.specs.Answers.{lost_after, damaged, act_on_bits, whole_step, row_step, answer_step};

use crate::{Answer, Hold, Master, Reply, refuse, silent};
use base_refusals::Refusal;
use machine_state::{State, count_of, with_count};
use set_plan::{Plan, Row};

// The answers lost between the last count and this one.
pub fn lost_after(last: u8, count: u8) -> u8
    ensures { result ≡ lost_after last count }
{
    if last < Master::NO_COUNT {
        let counts = Row::COUNTS as u16;
        (((count as u16) + counts - (last as u16) - 1) % counts) as u8
    } else {
        0
    }
}

impl Master {
    // A damaged answer, or one of a wrong length.
    fn damaged(self, publisher: u8, refusal: Refusal) -> Reply
        ensures { result ≡ damaged publisher (number refusal) self }
    {
        let marked = self.with_hold(publisher, Master::NO_HOLD, Master::DAMAGED);
        refuse(marked.call_back(), refusal)
    }

    // What the bits of a whole answer do.
    fn act_on_bits(self, publisher: u8, permission: bool, wake: bool) -> Master
        ensures { result ≡ act_on_bits publisher permission wake self }
    {
        if wake {
            self.drop_all().because(Master::WAKE, publisher).call_back()
        } else if permission {
            let given = Hold { held: true, age: 0 };
            self.with_hold(publisher, given, Master::NEW)
        } else {
            self.with_hold(publisher, Master::NO_HOLD, Master::REFUSED)
                .call_back()
        }
    }

    fn whole(mut self, row: Row, answer: Answer) -> Reply
        ensures { result ≡ whole_step row answer self }
    {
        // Two calls: one would be inlined, and the drill slower by what is then copied field by field.
        if row.is_counted() {
            let lost = lost_after(count_of(self.counts, row.reqid), answer.count);
            self.counts = with_count(self.counts, row.reqid, answer.count);
            let master = self.act_on_bits(row.publisher, answer.permission, answer.wake);
            Reply {
                lost,
                ..silent(master)
            }
        } else {
            silent(self.act_on_bits(row.publisher, answer.permission, answer.wake))
        }
    }

    // An answer of a row.
    fn of_row(self, row: Row, answer: Answer) -> Reply
        ensures { result ≡ row_step row answer self }
    {
        if row.publisher == Plan::MASTER {
            refuse(self, Refusal::NoReqId)
        } else if answer.result != 0 {
            self.damaged(row.publisher, Refusal::Damaged)
        } else if row.accepts(answer.length) {
            self.whole(row, answer)
        } else {
            self.damaged(row.publisher, Refusal::WrongLength)
        }
    }

    // An answer, with what the plan has for its ReqId.
    pub fn answer(self, row: Option<Row>, answer: Answer) -> Reply
        ensures { result ≡ answer_step row answer self }
    {
        let state = self.state;
        match state {
            State::Normal => match row {
                None => refuse(self, Refusal::NoReqId),
                Some(found) => self.of_row(found, answer),
            },
            State::Standby | State::Sleep => refuse(self, Refusal::NeedsNormal),
        }
    }
}
