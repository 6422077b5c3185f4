// Waking, calling back and the master's own permission.
ghost use Rattle.std.specs.Prelude.{◌≡◌};
ghost use Rattle.machine_master.specs.Changes.{in_phase, call_back};
ghost use Rattle.machine_master.specs.Waking.{wake_up_step, permission_step};

use crate::{Master, Phase, Reply, silent};
use machine_state::State;

impl Master {
    pub(crate) fn in_phase(self, phase: Phase) -> Master
        ensures { result ≡ in_phase phase self }
    {
        Master {
            phase,
            delay: 0,
            ..self
        }
    }

    pub(crate) fn call_back(self) -> Master
        ensures { result ≡ call_back self }
    {
        match self.phase {
            Phase::Sending => self.in_phase(Phase::Withdrawn),
            Phase::Closing => self.in_phase(Phase::Open),
            Phase::Open | Phase::Withdrawn => self,
        }
    }

    // A wake-up pulse, or the application's ask to wake.
    pub fn wake_up(self) -> Reply
        ensures { result ≡ wake_up_step self }
    {
        match self.state {
            State::Normal => silent(self.drop_all().call_back()),
            State::Sleep => silent(Master {
                state: State::Standby,
                delay: 0,
                ..self
            }),
            State::Standby => silent(self),
        }
    }

    pub fn permit(mut self, permitted: bool) -> Reply
        ensures { result ≡ permission_step permitted self }
    {
        self.permission = permitted;
        if permitted {
            silent(self)
        } else {
            silent(self.call_back())
        }
    }
}
