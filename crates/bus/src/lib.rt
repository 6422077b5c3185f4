// The master and its nodes on a bus: what a move does to them.
#![tactic(auto)]

ghost use Rattle.std.specs.Prelude.{◌≡◌};
ghost use Rattle.bus.specs.World.{power_on, stays};
ghost use Rattle.bus.specs.Moves.{world_act, world_step};

use base_refusals::Refusal;
use machine_master::{Answer, Master};
use machine_node::Node;
use set_plan::{Plan, Row, judge};

mod applications;
mod messages;
mod pulses;
mod range;
mod ticks;
mod what_passed;

// All machines of a plan; nodes from its number on stay as they are.
#[derive(Clone, Copy)]
pub struct World {
    pub master: Master,
    pub nodes: [Node; Plan::NODES],
}

#[derive(Clone, Copy)]
pub enum Act {
    Tick,
    // an application's ask to wake
    NodeWakeAsk(u8),
    MasterWakeAsk,
    // an application's permission to sleep
    NodePermission { node: u8, permitted: bool },
    MasterPermission(bool),
    // the master's request of a ReqId
    Request(u8),
    // the application's ask to send a ReqId
    SendAsk { node: u8, reqid: u8 },
    // the application's ask to send the sleep message
    SleepAsk,
    // whether the sleep message was sent
    SendResult(bool),
}

// What the bus made of a damaged answer, whose ReqId it keeps.
#[derive(Clone, Copy)]
pub struct Damage {
    // not 0
    pub result: u16,
    pub length: u16,
    // 0 to 3
    pub count: u8,
    pub permission: bool,
    pub wake: bool,
}

// What becomes of an answer.
#[derive(Clone, Copy)]
pub enum Fate {
    // with the length that one of a variable row is sent with; above the row's own it is the row's own
    Whole(u16),
    Damaged(Damage),
    Lost,
}

// What the bus does in a move.
#[derive(Clone, Copy)]
pub struct Bus {
    // the nodes that a request or a sleep message reaches
    pub reached: [bool; Plan::NODES],
    // the nodes that hear a wake-up pulse of another
    pub hearing: [bool; Plan::NODES],
    // whether the master hears a wake-up pulse
    pub master: bool,
    pub fate: Fate,
}

#[derive(Clone, Copy)]
pub struct Move {
    pub act: Act,
    pub bus: Bus,
}

// A permission that an application gave or took back.
#[derive(Clone, Copy)]
pub enum PermissionChange {
    Master(bool),
    Node { node: u8, permitted: bool },
}

// What passed in a move.
#[derive(Clone, Copy)]
pub struct Passed {
    // a tick, the clock as it left it, and whether it commanded the clock off; no Option: is_stop and leaves_on of bus_history read these flags
    pub tick: bool,
    pub clock: bool,
    pub stop: bool,
    // an ask to wake, a node's or the master's
    pub asked: bool,
    // a wake-up pulse reached the master, or its own application asked it to wake
    pub woken: bool,
    pub permission: Option<PermissionChange>,
    // the answer that reached the master of a node's sending, with its row
    pub arrival: Option<(Row, Answer)>,
    // a sleep message's ask was accepted
    pub sending: bool,
    // whether a sleep message was sent, in the move of its result
    pub result: Option<bool>,
    // the nodes that a sleep message reached
    pub slept: [bool; Plan::NODES],
}

// What a move gives.
#[derive(Clone, Copy)]
pub struct Moved {
    pub world: World,
    // its number, 0 for none, as the machines' replies hand it back
    pub refusal: u8,
    pub passed: Passed,
}

// What becomes of a publisher's reply at the master.
#[derive(Clone, Copy)]
pub struct Delivered {
    pub master: Master,
    // as in Moved
    pub refusal: u8,
    pub passed: Passed,
}

// A move that changes nothing.
pub fn stays(world: World, refusal: u8) -> Moved
    ensures { result ≡ stays world refusal }
{
    Moved {
        world,
        refusal,
        passed: Passed::nothing(),
    }
}

impl World {
    pub fn power_on(sleeps: bool) -> World
        ensures { result ≡ power_on sleeps }
    {
        World {
            master: Master::power_on(sleeps),
            nodes: [Node::power_on(sleeps); Plan::NODES],
        }
    }

    // What a move does once plan and world are judged.
    pub fn act(self, plan: Plan, movement: Move) -> Moved
        ensures { result ≡ world_act plan self movement }
    {
        let Move { act, bus } = movement;
        let sleeps = plan.sleeps();
        match act {
            Act::Tick => self.tick(sleeps, plan.nodecount, plan.times, bus),
            Act::NodeWakeAsk(node) => self.node_wake_ask(sleeps, plan.nodecount, node, bus),
            Act::MasterWakeAsk => self.master_wake_ask(),
            Act::NodePermission { node, permitted } => {
                self.node_permission(sleeps, plan.nodecount, node, permitted)
            }
            Act::MasterPermission(permitted) => self.master_permission(permitted),
            Act::Request(reqid) => self.request(plan, reqid, bus),
            Act::SendAsk { node, reqid } => self.send_ask(plan, node, reqid, bus),
            Act::SleepAsk => self.sleep_ask(sleeps, plan.nodecount),
            Act::SendResult(sent) => self.send_result(plan.nodecount, sent, bus),
        }
    }

    // A move under a plan.
    pub fn step(self, plan: Plan, movement: Move) -> Moved
        ensures { result ≡ world_step plan self movement }
    {
        if let Err(refusal) = judge(plan) {
            return stays(self, refusal.number());
        }
        if !self.in_range(plan.sleeps(), plan.nodecount, plan.times) {
            return stays(self, Refusal::NoState.number());
        }
        self.act(plan, movement)
    }
}
