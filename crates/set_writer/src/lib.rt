// The writer of release sets.
#![tactic(auto)]

ghost use Rattle.std.specs.Prelude.{◌≡◌, length};
ghost use Rattle.base_refusals.specs.Numbers.{number_of};
ghost use Rattle.set_record.specs.Record.{record_of};
ghost use Rattle.set_writer.specs.Write.{write_told, write_refusal, write_result, written};

use base_refusals::Refusal;
use set_plan::Plan;

mod set_blocks;

fn judge(plan: &[u8], room: usize) -> Result<(), Refusal>
    ensures { number_of result ≡ write_refusal (record_of plan.now) room }
{
    set_record::judge(plan)?;
    Refusal::BufferShort.unless(set_blocks::set_length(set_record::row_count(plan)) <= room)
}

// Writes the set of a packed plan record to the front of a buffer and gives its length. Refused by the first rule that is broken, it leaves
// the buffer as it was.
pub fn write_record(plan: &[u8], buffer: &mut [u8]) -> Result<usize, Refusal>
    ensures { (write_told result ≡ write_result (record_of plan.now) (length buffer.old))
        × (buffer.new ≡ written (record_of plan.now) buffer.old) }
{
    judge(plan, buffer.len())?;
    let rowcount = set_record::row_count(plan);
    let length = set_blocks::set_length(rowcount);
    set_blocks::put_data(plan, buffer);
    set_blocks::put_checks(rowcount, buffer);
    Ok(length)
}

// The same of a plan.
pub fn write(p: Plan, buffer: &mut [u8]) -> Result<usize, Refusal>
    ensures { (write_told result ≡ write_result p (length buffer.old)) × (buffer.new ≡ written p buffer.old) }
{
    let record = set_record::bytes_of(p);
    write_record(&record[..], buffer)
}
