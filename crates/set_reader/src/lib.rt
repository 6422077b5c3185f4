// The reader of release sets.
#![tactic(auto)]

ghost use Rattle.std.specs.Prelude.{◌≡◌, length};
ghost use Rattle.base_refusals.specs.Numbers.{number_of};
ghost use Rattle.set_plan.specs.Record.{zero_plan};
ghost use Rattle.set_record.specs.Record.{record_written};
ghost use Rattle.set_reader.specs.Read.{read_told, read_set, record_refusal};

use base_bytes::{put, put_zeros};
use base_refusals::Refusal;
use set_plan::Plan;

mod layout;
mod offsets;
mod rules;

pub use offsets::{CHECK_AT, ENTRIES_AT, LONG_LENGTH, ROWS_AT, SHORT_LENGTH, TIMES_AT};

// The all-zero record, where the buffer has room for one.
fn clear(buffer: &mut [u8])
    ensures { buffer.new ≡ record_written zero_plan buffer.old }
{
    if buffer.len() < set_record::LENGTH {
        return;
    }
    put_zeros(buffer, 0, set_record::LENGTH);
}

// Reads a set into a packed plan record at the front of a buffer. Refused by the first rule that the bytes break, it leaves the all-zero
// record; a buffer that is too short, refused last, stays.
// The record is made once the bytes have the shape of a set, since a wrong length or check is the common refusal.
pub fn read_record(set: &[u8], buffer: &mut [u8]) -> Result<(), Refusal>
    ensures { (number_of result ≡ record_refusal set.now (length buffer.old))
        × (buffer.new ≡ record_written (read_set set.now).plan buffer.old) }
{
    if let Err(refusal) = rules::judge_shape(set) {
        clear(buffer);
        return Err(refusal);
    }
    let mut record = [0; set_record::LENGTH];
    layout::put_record(set, &mut record[..]);
    if let Err(refusal) = rules::judge_content(set, set_record::judge(&record[..])) {
        clear(buffer);
        return Err(refusal);
    }
    Refusal::BufferShort.unless(set_record::LENGTH <= buffer.len())?;
    put(buffer, 0, &record[..]);
    Ok(())
}

// The plan of a set, or the first rule that the bytes break.
pub fn read(set: &[u8]) -> Result<Plan, Refusal>
    ensures { read_told result ≡ read_set set.now }
{
    let mut record = [0; set_record::LENGTH];
    read_record(set, &mut record[..])?;
    Ok(set_record::plan_of(&record[..]))
}
