// Waking and permission of a node.
ghost use Rattle.std.specs.Prelude.{◌≡◌};
ghost use Rattle.machine_node.specs.Waking.{pulse_step, wake_ask_step, permission_step};

use crate::{Node, Reply, calls, silent};
use machine_state::State;

impl Node {
    pub fn pulse(self) -> Reply
        ensures { result ≡ pulse_step self }
    {
        if matches!(self.state, State::Sleep) {
            silent(self.to_standby(false))
        } else {
            silent(self)
        }
    }

    pub fn wake_ask(mut self, sleeps: bool) -> Reply
        ensures { result ≡ wake_ask_step sleeps self }
    {
        self.wake = true;
        match self.state {
            State::Sleep => calls(self.to_standby(true)),
            State::Standby if self.caller => silent(self),
            State::Standby => calls(self.to_standby(true)),
            // the clock is gone (W-204)
            State::Normal if sleeps & self.error => {
                let cleared = Node {
                    error: false,
                    quiet: 0,
                    delay: None,
                    ..self
                };
                calls(cleared.to_standby(true))
            }
            State::Normal => silent(self),
        }
    }

    pub fn permit(mut self, sleeps: bool, permitted: bool) -> Reply
        ensures { result ≡ permission_step sleeps permitted self }
    {
        self.permission = permitted;
        if permitted & sleeps & self.error {
            silent(self.to_sleep())
        } else {
            silent(self)
        }
    }
}
