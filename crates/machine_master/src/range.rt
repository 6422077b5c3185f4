// The limits of the master's fields.
ghost use Rattle.std.specs.Prelude.{◌≡◌, ◌&&◌};
ghost use Rattle.machine_master.specs.Range.{phase_right, is_awake, delay_right, hold_right, holds_right, cause_right, causes_right, in_range};

use crate::{Hold, Master, Phase};
use machine_state::{State, counts_below, is_normal};
use set_plan::{Plan, Times};

fn phase_right(state: State, phase: Phase) -> bool
    ensures { result ≡ phase_right state phase }
{
    is_normal(state) | matches!(phase, Phase::Open)
}

fn is_awake(state: State, phase: Phase) -> bool
    ensures { result ≡ is_awake state phase }
{
    is_normal(state) & matches!(phase, Phase::Open)
}

fn delay_right(times: Times, state: State, phase: Phase, delay: u16) -> bool
    ensures { result ≡ delay_right times state phase delay }
{
    match (state, phase) {
        (State::Normal, Phase::Closing) => delay < times.stop,
        (State::Standby, _) => delay < times.start,
        _ => delay == 0,
    }
}

fn hold_right(nodecount: u8, window: u16, node: u8, hold: Hold) -> bool
    ensures { result ≡ hold_right nodecount window node hold }
{
    if hold.held {
        (node < nodecount) & (hold.age <= window)
    } else {
        hold.age == 0
    }
}

fn cause_right(normal: bool, nodecount: u8, node: u8, held: bool, cause: u8) -> bool
    ensures { result ≡ cause_right normal nodecount node held cause }
{
    if normal & (node < nodecount) & !held {
        cause <= Master::WAKE
    } else {
        cause == Master::NEW
    }
}

// The permissions and their causes, in one loop without an exit.
fn nodes_right(
    normal: bool,
    nodecount: u8,
    window: u16,
    holds: [Hold; Plan::NODES],
    causes: [u8; Plan::NODES],
) -> bool
    ensures { result ≡ (holds_right nodecount window holds && causes_right normal nodecount holds causes) }
{
    let mut right = true;
    for (i, hold) in holds.iter().enumerate() {
        let node = i as u8;
        right &= hold_right(nodecount, window, node, *hold)
            & cause_right(normal, nodecount, node, hold.held, causes[i]);
    }
    right
}

impl Master {
    #[tactic(auto, unfolding(crate::specs::Range::in_range))]
    pub fn in_range(self, sleeps: bool, nodecount: u8, times: Times) -> bool
        ensures { result ≡ in_range sleeps nodecount times self }
    {
        let normal = is_normal(self.state);
        (sleeps | is_awake(self.state, self.phase))
            & phase_right(self.state, self.phase)
            & delay_right(times, self.state, self.phase, self.delay)
            & counts_below(self.counts, Master::NO_COUNT + 1)
            & nodes_right(normal, nodecount, times.window, self.holds, self.causes)
    }
}
