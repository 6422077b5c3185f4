// Ticks of the master.
ghost use Rattle.std.specs.Prelude.{◌≡◌, true, false};
ghost use Rattle.machine_master.specs.Ticks.{aged, to_normal, to_sleep, delay_tick, tick_step};

use crate::{Command, Master, Phase, Reply, causes, commands, holds, silent};
use machine_state::{State, is_normal};
use set_plan::{Plan, Row, Times};

impl Master {
    // The tick number wraps on purpose; ages are counted apart from it.
    fn aged(mut self, window: u16) -> Master
        ensures { result ≡ aged window self }
    {
        let normal = is_normal(self.state);
        self.causes = causes::all_aged_out(normal, window, self.holds, self.causes);
        self.holds = holds::all_older(window, self.holds);
        self.ticks = self.ticks.wrapping_add(1);
        self
    }

    fn to_normal(self) -> Master
        ensures { result ≡ to_normal self }
    {
        Master {
            state: State::Normal,
            phase: Phase::Open,
            causes: [Master::NEW; Plan::NODES],
            counts: [Master::NO_COUNT; Row::REQIDS],
            delay: 0,
            ..self
        }
    }

    fn to_sleep(self) -> Master
        ensures { result ≡ to_sleep self }
    {
        Master {
            state: State::Sleep,
            phase: Phase::Open,
            holds: [Master::NO_HOLD; Plan::NODES],
            causes: [Master::NEW; Plan::NODES],
            delay: 0,
            ..self
        }
    }

    // One function for the two, as their definition is, makes the drill slower (docs/DECISIONS.md).
    fn standby_tick(mut self, start: u16) -> Reply
        ensures { result ≡ delay_tick start true self }
    {
        let delay = self.delay;
        if (delay as u32) + 1 < (start as u32) {
            self.delay = delay + 1;
            silent(self)
        } else {
            commands(self.to_normal(), Command::ClockOn)
        }
    }

    fn closing_tick(mut self, stop: u16) -> Reply
        ensures { result ≡ delay_tick stop false self }
    {
        let delay = self.delay;
        if (delay as u32) + 1 < (stop as u32) {
            self.delay = delay + 1;
            silent(self)
        } else {
            commands(self.to_sleep(), Command::ClockOff)
        }
    }

    pub fn tick(self, times: Times) -> Reply
        ensures { result ≡ tick_step times self }
    {
        let next = self.aged(times.window);
        match (self.state, self.phase) {
            (State::Standby, _) => next.standby_tick(times.start),
            (State::Normal, Phase::Closing) => next.closing_tick(times.stop),
            _ => silent(next),
        }
    }
}
