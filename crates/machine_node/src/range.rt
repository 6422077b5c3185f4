// The limits of a node's fields.
ghost use Rattle.std.specs.Prelude.{◌≡◌};
ghost use Rattle.machine_node.specs.Range.{delay_right, standby_right, is_awake, in_range};

use crate::Node;
use machine_state::{State, counts_below};
use set_plan::Times;

fn delay_right(limit: u16, delay: Option<u16>) -> bool
    ensures { result ≡ delay_right limit delay }
{
    match delay {
        None => true,
        Some(ticks) => ticks < limit,
    }
}

fn standby_right(times: Times, state: State, caller: bool, standby: u32) -> bool
    ensures { result ≡ standby_right times state caller standby }
{
    match state {
        State::Normal | State::Sleep => !caller & (standby == 0),
        State::Standby if caller => standby <= 2 * (times.recovery as u32),
        State::Standby => standby < (times.space as u32),
    }
}

fn is_awake(state: State, delay: Option<u16>) -> bool
    ensures { result ≡ is_awake state delay }
{
    match state {
        State::Normal => match delay {
            None => true,
            Some(_) => false,
        },
        State::Standby => false,
        State::Sleep => false,
    }
}

impl Node {
    #[tactic(auto, unfolding(crate::specs::Range::in_range))]
    pub fn in_range(self, sleeps: bool, times: Times) -> bool
        ensures { result ≡ in_range sleeps times self }
    {
        (sleeps | is_awake(self.state, self.delay))
            & (self.quiet <= times.quiet)
            & delay_right(times.sleep, self.delay)
            & standby_right(times, self.state, self.caller, self.standby)
            & counts_below(self.counts, Node::COUNTS)
    }
}
