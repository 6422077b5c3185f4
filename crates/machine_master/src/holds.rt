// Permissions that the master holds.
ghost use Rattle.std.specs.Prelude.{◌≡◌};
ghost use Rattle.base_lists.specs.Bounded.{first_to};
ghost use Rattle.machine_master.specs.Changes.{let_all_go};
ghost use Rattle.machine_master.specs.Ticks.{older, all_older};
ghost use Rattle.machine_master.specs.Sleeping.{not_held};

use crate::{Hold, Master};
use set_plan::Plan;

// A permission a tick later.
pub fn older(window: u16, hold: Hold) -> Hold
    ensures { result ≡ older window hold }
{
    if !hold.held {
        hold
    } else if hold.age < window {
        Hold {
            age: hold.age + 1,
            ..hold
        }
    } else {
        Master::NO_HOLD
    }
}

pub(crate) fn all_older(window: u16, holds: [Hold; Plan::NODES]) -> [Hold; Plan::NODES]
    ensures { result ≡ all_older window holds }
{
    let mut next = [Master::NO_HOLD; Plan::NODES];
    for i in 0..Plan::NODES {
        next[i] = older(window, holds[i]);
    }
    next
}

// The lowest node whose permission is not held, the number of nodes where each is.
pub fn first_not_held(holds: [Hold; Plan::NODES], nodecount: u8) -> u8
    ensures { result ≡ first_to (not_held holds) nodecount }
{
    for i in 0..nodecount {
        if Plan::NODES <= (i as usize) {
            return i;
        }
        let hold = holds[i as usize];
        if !hold.held {
            return i;
        }
    }
    nodecount
}

impl Master {
    pub(crate) fn let_all_go(mut self) -> Master
        ensures { result ≡ let_all_go self }
    {
        self.holds = [Master::NO_HOLD; Plan::NODES];
        self
    }
}
