// Ticks of a node, with clock and without.
ghost use Rattle.std.specs.Prelude.{◌≡◌};
ghost use Rattle.machine_node.specs.Ticks.{quiet_tick, awake_tick, normal_tick, caller_tick, listener_tick, standby_tick, tick_step};

use crate::{Node, Reply, calls, silent};
use machine_state::State;
use set_plan::Times;

impl Node {
    fn quiet_tick(mut self, sleeps: bool, limit: u16) -> Reply
        ensures { result ≡ quiet_tick sleeps limit self }
    {
        let quiet = self.quiet;
        if (quiet as u32) + 1 < (limit as u32) {
            self.quiet = quiet + 1;
            silent(self)
        } else if sleeps & self.permission {
            silent(self.to_sleep())
        } else {
            self.quiet = limit;
            self.error = true;
            silent(self)
        }
    }

    fn awake_tick(mut self, sleeps: bool, limit: u16, clock: bool) -> Reply
        ensures { result ≡ awake_tick sleeps limit clock self }
    {
        if clock {
            self.error = false;
            self.quiet = 0;
            silent(self)
        } else {
            self.quiet_tick(sleeps, limit)
        }
    }

    fn normal_tick(self, sleeps: bool, times: Times, clock: bool) -> Reply
        ensures { result ≡ normal_tick sleeps times clock self }
    {
        let delay = self.delay;
        match delay {
            None => self.awake_tick(sleeps, times.quiet, clock),
            Some(ticks) => {
                if (ticks as u32) + 1 < (times.sleep as u32) {
                    let later = Node {
                        delay: Some(ticks + 1),
                        ..self
                    };
                    later.awake_tick(sleeps, times.quiet, clock)
                } else {
                    silent(self.to_sleep())
                }
            }
        }
    }

    fn caller_tick(mut self, recovery: u16) -> Reply
        ensures { result ≡ caller_tick recovery self }
    {
        let next = (self.standby as u64) + 1;
        let last = 2 * (recovery as u32);
        if next < (last as u64) {
            self.standby = next as u32;
            if next == (recovery as u64) {
                calls(self)
            } else {
                silent(self)
            }
        } else if self.permission {
            silent(self.to_sleep())
        } else {
            self.standby = last;
            self.error = true;
            silent(self)
        }
    }

    fn listener_tick(mut self, space: u16) -> Reply
        ensures { result ≡ listener_tick space self }
    {
        let next = (self.standby as u64) + 1;
        if next < (space as u64) {
            self.standby = next as u32;
            silent(self)
        } else {
            silent(self.to_sleep())
        }
    }

    fn standby_tick(self, times: Times) -> Reply
        ensures { result ≡ standby_tick times self }
    {
        if self.caller {
            self.caller_tick(times.recovery)
        } else {
            self.listener_tick(times.space)
        }
    }

    pub fn tick(self, sleeps: bool, times: Times, clock: bool) -> Reply
        ensures { result ≡ tick_step sleeps times clock self }
    {
        match (self.state, clock) {
            (State::Normal, _) => self.normal_tick(sleeps, times, clock),
            (State::Standby, true) => silent(self.to_normal()),
            (State::Standby, false) => self.standby_tick(times),
            (State::Sleep, true) => silent(self.to_standby(false)),
            (State::Sleep, false) => silent(self),
        }
    }
}
