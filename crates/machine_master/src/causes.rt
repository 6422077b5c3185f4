// Why permissions are not held. Loops fill the places, as in holds.rt: firmware/retarget.py refuses `array::from_fn` with a closure that
// captures.
ghost use Rattle.std.specs.Prelude.{◌≡◌, slice_set};
ghost use Rattle.machine_master.specs.Changes.{with_holds, woken, all_woken, with_cause, drop_all};
ghost use Rattle.machine_master.specs.Ticks.{aged_out, all_aged_out};

use crate::{Hold, Master};
use set_plan::Plan;

// A wake-up is the cause only where it lets go.
fn woken(hold: Hold, cause: u8) -> u8
    ensures { result ≡ woken hold cause }
{
    if hold.held { Master::WAKE } else { cause }
}

fn all_woken(holds: [Hold; Plan::NODES], causes: [u8; Plan::NODES]) -> [u8; Plan::NODES]
    ensures { result ≡ all_woken holds causes }
{
    let mut next = [Master::NEW; Plan::NODES];
    for i in 0..Plan::NODES {
        next[i] = woken(holds[i], causes[i]);
    }
    next
}

fn aged_out(normal: bool, window: u16, hold: Hold, cause: u8) -> u8
    ensures { result ≡ aged_out normal window hold cause }
{
    if normal & hold.held & (window <= hold.age) {
        Master::AGED
    } else {
        cause
    }
}

// In most ticks none ages out: that is asked first, without an exit, so that it is compiled to vector instructions.
pub(crate) fn all_aged_out(
    normal: bool,
    window: u16,
    holds: [Hold; Plan::NODES],
    causes: [u8; Plan::NODES],
) -> [u8; Plan::NODES]
    ensures { result ≡ all_aged_out normal window holds causes }
{
    let mut due = false;
    for hold in holds.iter() {
        due |= normal & hold.held & (window <= hold.age);
    }
    if !due {
        return causes;
    }
    let mut next = [Master::NEW; Plan::NODES];
    for k in 0..Plan::NODES {
        next[k] = aged_out(normal, window, holds[k], causes[k]);
    }
    next
}

impl Master {
    // A node's permission and its cause, in place, so that the master is not copied for each.
    pub(crate) fn with_hold(mut self, node: u8, hold: Hold, cause: u8) -> Master
        ensures { result ≡ with_holds (slice_set self.holds node hold) (with_cause cause node self) }
    {
        if (node as usize) < Plan::NODES {
            self.holds[node as usize] = hold;
            self.causes[node as usize] = cause;
        }
        self
    }

    pub(crate) fn because(mut self, cause: u8, node: u8) -> Master
        ensures { result ≡ with_cause cause node self }
    {
        if (node as usize) < Plan::NODES {
            self.causes[node as usize] = cause;
        }
        self
    }

    // A wake-up lets all go.
    pub(crate) fn drop_all(mut self) -> Master
        ensures { result ≡ drop_all self }
    {
        self.causes = all_woken(self.holds, self.causes);
        self.let_all_go()
    }
}
