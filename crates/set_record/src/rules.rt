// The rules of a plan in the bytes of its packed record: each entry and each row by the rule that judges a record's.
ghost use Rattle.std.specs.Prelude.{◌≡◌, ◌≤◌};
ghost use Rattle.base_lists.specs.Bounded.{all_to};
ghost use Rattle.base_refusals.specs.Numbers.{number_of};
ghost use Rattle.set_plan.specs.Limits.{max_nodes, max_rows};
ghost use Rattle.set_plan.specs.Rules.{between, node_right, nodes_right, plan_refusal};
ghost use Rattle.set_record.specs.Record.{plan_in};
ghost use Rattle.set_record.specs.RowsRefusal.{rows_refusal};

use crate::fields::Record;
use base_refusals::Refusal;
use set_plan::{Plan, table_index};

impl<'a> Record<'a> {
    // Not set_plan's rule of the entries, since firmware/retarget.py refuses a closure that holds a slice. On x86-64 its table is not to lie on the
    // stack beside that of the rows.
    #[inline(never)]
    fn each_node_right(self, count: u32) -> bool
        requires { count ≤ max_nodes }
        ensures { result ≡ all_to (node_right (plan_in self.entry.bytes.now).nodes) count }
    {
        let mut taken = [false; 256];
        for k in 0..count {
            let entry = self.entry(k);
            if !set_plan::entry_right(entry) {
                return false;
            }
            let address = table_index(entry.address);
            if taken[address] {
                return false;
            }
            taken[address] = true;
        }
        true
    }

    // One pass with an exit: on a 32-bit controller a third fewer instructions than two passes, or than one without exit.
    fn judge_rows(self, nodecount: u8, count: u32) -> Result<(), Refusal>
        requires { count ≤ max_rows }
        ensures { number_of result ≡ rows_refusal (plan_in self.entry.bytes.now).rows nodecount count }
    {
        let mut seen = [false; 256];
        let mut before = 0;
        for j in 0..count {
            let row = self.row(j);
            if !set_plan::row_after(nodecount, before, row) {
                return Err(Refusal::WrongRow);
            }
            seen[usize::from(row.publisher)] = true;
            before = row.reqid;
        }
        for k in 0..nodecount {
            if !seen[k as usize] {
                return Err(Refusal::NoRowOfNode);
            }
        }
        Ok(())
    }

    fn nodes_right(self) -> bool
        ensures { result ≡ nodes_right (plan_in self.entry.bytes.now) }
    {
        let count = self.node_count();
        (1..=Plan::NODES).contains(&usize::from(count)) && self.each_node_right(u32::from(count))
    }

    fn row_count_right(self) -> bool
        ensures { result ≡ between 1 max_rows (plan_in self.entry.bytes.now).rowcount }
    {
        (1..=Plan::ROWS).contains(&usize::from(self.row_count()))
    }

    #[tactic(auto, unfolding(set_plan::specs::Rules::plan_refusal, set_plan::specs::Rules::rows_right))]
    pub(crate) fn judge(self) -> Result<(), Refusal>
        ensures { number_of result ≡ plan_refusal (plan_in self.entry.bytes.now) }
    {
        Refusal::WrongBlock.unless(set_plan::profile_right(self.profile()))?;
        Refusal::WrongRevision.unless(self.revision() != 0)?;
        Refusal::WrongTime.unless(set_plan::times_right(self.times()))?;
        Refusal::WrongNode.unless(self.nodes_right())?;
        Refusal::WrongRow.unless(self.row_count_right())?;
        self.judge_rows(self.node_count(), u32::from(self.row_count()))
    }
}
