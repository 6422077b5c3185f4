// The sleep message: its ask and its result.
ghost use Rattle.std.specs.Prelude.{◌≡◌};
ghost use Rattle.machine_master.specs.Sleeping.{open_ask, sleep_ask_step, send_result_step};

use crate::{Command, Master, Phase, Reply, commands, holds, refuse, silent};
use base_refusals::Refusal;
use machine_state::is_normal;

impl Master {
    fn open_ask(self, nodecount: u8) -> Reply
        ensures { result ≡ open_ask nodecount self }
    {
        if !self.permission {
            return refuse(self, Refusal::NotPermitted);
        }
        let node = holds::first_not_held(self.holds, nodecount);
        if node < nodecount {
            Reply {
                node,
                ..refuse(self, Refusal::NotHeld)
            }
        } else {
            commands(self.in_phase(Phase::Sending), Command::SleepMessage)
        }
    }

    pub fn sleep_ask(self, sleeps: bool, nodecount: u8) -> Reply
        ensures { result ≡ sleep_ask_step sleeps nodecount self }
    {
        if !is_normal(self.state) {
            refuse(self, Refusal::NeedsNormal)
        } else if !sleeps {
            refuse(self, Refusal::NeverSleeps)
        } else if !matches!(self.phase, Phase::Open) {
            refuse(self, Refusal::UnderWay)
        } else {
            self.open_ask(nodecount)
        }
    }

    pub fn send_result(self, sent: bool) -> Reply
        ensures { result ≡ send_result_step sent self }
    {
        if !is_normal(self.state) {
            return refuse(self, Refusal::NeedsNormal);
        }
        match self.phase {
            Phase::Sending if sent => silent(self.in_phase(Phase::Closing)),
            Phase::Sending => silent(self.in_phase(Phase::Open)),
            Phase::Withdrawn => silent(self.in_phase(Phase::Open)),
            Phase::Open | Phase::Closing => refuse(self, Refusal::NoResultDue),
        }
    }
}
