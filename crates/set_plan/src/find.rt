// The row of a ReqId.
ghost use Rattle.std.specs.Prelude.{◌≡◌};
ghost use Rattle.set_plan.specs.Find.{find_row};

use crate::{Plan, Row};

// The first row of a ReqId among the rows in use.
pub fn find_row(p: Plan, reqid: u8) -> Option<Row>
    ensures { result ≡ find_row p reqid }
{
    for row in p.rows_in_use() {
        if row.reqid == reqid {
            return Some(*row);
        }
    }
    None
}
