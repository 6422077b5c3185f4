// A master's step on the bytes of a plan and of its state.
ghost use Rattle.std.specs.Prelude.{◌≡◌};
ghost use Rattle.set_record.specs.Record.{record_of};
ghost use Rattle.machine_master.specs.Step.{row_asked, step_under};
ghost use Rattle.packed_master.specs.States.{master_of};

use crate::states::master_of;
use machine_master::{Event, Reply};
use set_plan::Row;

// The row that an event asks the plan for.
pub fn row_for(plan: &[u8], event: Event) -> Option<Row>
    ensures { result ≡ row_asked (record_of plan.now) event }
{
    set_record::row_of(plan, event.reqid()?)
}

// A step where the plan is accepted, with nothing written.
pub fn step_on(plan: &[u8], state: &[u8], event: Event) -> Reply
    ensures { result ≡ step_under (record_of plan.now) (master_of state.now) event }
{
    master_of(state).step_with(
        set_record::sleeps(plan),
        set_record::node_count(plan),
        set_record::times_of(plan),
        row_for(plan, event),
        event,
    )
}
