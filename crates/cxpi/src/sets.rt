// Calls on release sets.
ghost use Rattle.std.specs.Prelude.{◌≡◌, length};
ghost use Rattle.set_record.specs.Record.{record_of, record_written};
ghost use Rattle.set_reader.specs.Read.{read_set, record_refusal};
ghost use Rattle.set_writer.specs.Write.{write_result, written};

use base_refusals::number_of;
use set_reader::read_record;
use set_writer::write_record;

pub fn cxpi_read(set: &[u8], plan: &mut [u8]) -> u32
    ensures { (result ≡ record_refusal set.now (length plan.old))
        × (plan.new ≡ record_written (read_set set.now).plan plan.old) }
{
    number_of(read_record(set, plan)) as u32
}

pub fn cxpi_write(plan: &[u8], set: &mut [u8], size: &mut u16) -> u32
    ensures { (result ≡ (write_result (record_of plan.now) (length set.old)).refusal)
        × (set.new ≡ written (record_of plan.now) set.old)
        × (size.new ≡ (write_result (record_of plan.now) (length set.old)).length) }
{
    match write_record(plan, set) {
        Ok(length) => {
            *size = length as u16;
            0
        }
        Err(refusal) => {
            *size = 0;
            refusal.number() as u32
        }
    }
}
