// What both calls for power-on judge.
ghost use Rattle.std.specs.Prelude.{◌≡◌};
ghost use Rattle.base_refusals.specs.Numbers.{number_of};
ghost use Rattle.cxpi.specs.PowerOn.{start_refusal};

use base_refusals::Refusal;

pub(crate) fn judge(needed: usize, plan: &[u8], room: usize) -> Result<(), Refusal>
    ensures { number_of result ≡ start_refusal needed plan.now room }
{
    set_record::judge(plan)?;
    Refusal::BufferShort.unless(needed <= room)
}
