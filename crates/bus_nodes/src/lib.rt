// The nodes of a bus: a tick of them, messages that reach some of them, and their limits.
#![tactic(auto)]

ghost use Rattle.std.specs.Prelude.{◌≡◌};
ghost use Rattle.bus_nodes.specs.Nodes.{nodes_used};

use machine_node::Node;
use set_plan::{Plan, Row};

mod pulses;
mod range;
mod ticks;

pub use pulses::{any_called, reach_all, with_caller};
pub use range::nodes_in_range;
pub use ticks::tick_nodes;

// The nodes that sent a wake-up pulse in a move.
#[derive(Clone, Copy, PartialEq, Eq)]
pub enum Callers {
    Nobody,
    One(u8),
    Several,
}

// What can reach several nodes.
#[derive(Clone, Copy)]
pub enum Message {
    Pulse(Callers),
    // a request, with what the plan has for its ReqId
    Request(Option<Row>),
    SleepMessage,
}

// The nodes after a tick, and those of them that sent a pulse in it.
#[derive(Clone, Copy)]
pub struct Ticked {
    pub nodes: [Node; Plan::NODES],
    pub callers: Callers,
}

// Of so many nodes those that the table has places for.
pub fn nodes_used(nodecount: u8) -> u8
    ensures { result ≡ nodes_used nodecount }
{
    nodecount.min(Plan::NODES as u8)
}
