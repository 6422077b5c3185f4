// The node machine.
#![tactic(auto)]

ghost use Rattle.std.specs.Prelude.{◌≡◌};
ghost use Rattle.base_refusals.specs.Numbers.{number};
ghost use Rattle.machine_node.specs.Changes.{power_on, to_sleep, to_normal, to_standby, silent, calls, refuse};
ghost use Rattle.machine_node.specs.Step.{event_right, reqid_asked, row_asked, act_with, step_with, step_under, node_step};

use base_refusals::Refusal;
use machine_state::{State, start_state};
use set_plan::{Plan, Row, Times, judge};

mod range;
mod sending;
mod ticks;
mod waking;

#[derive(Clone, Copy)]
pub enum Command {
    Nothing,
    // a wake-up pulse
    Pulse,
    // an answer with the permission bit, the wake bit and the sequence count
    Send {
        permission: bool,
        wake: bool,
        count: u8,
    },
}

#[derive(Clone, Copy)]
pub enum Event {
    // with clock or without
    Tick(bool),
    // a pulse heard
    Pulse,
    // the application's ask to wake
    WakeAsk,
    // the application's permission to sleep
    Permission(bool),
    SleepMessage,
    // the master's request of a ReqId
    Request(u8),
    // the application's ask to send a ReqId
    SendAsk(u8),
}

#[derive(Clone, Copy)]
pub struct Node {
    pub state: State,
    pub permission: bool,
    // network error
    pub error: bool,
    // the wake bit of the next answer
    pub wake: bool,
    // whether a request was heard since Normal was entered
    pub heard: bool,
    // in Standby: whether the node called the master
    pub caller: bool,
    // ticks without clock in Normal
    pub quiet: u16,
    // ticks of the sleep delay that a sleep message starts, where one runs
    pub delay: Option<u16>,
    // ticks in Standby
    pub standby: u32,
    // a sequence count per ReqId
    pub counts: [u8; Row::REQIDS],
}

// What a step gives. No Result: a refused step hands back the node too ("returns the state as given and no command").
#[derive(Clone, Copy)]
pub struct Reply {
    pub node: Node,
    pub command: Command,
    pub refusal: u8,
}

fn silent(node: Node) -> Reply
    ensures { result ≡ silent node }
{
    Reply {
        node,
        command: Command::Nothing,
        refusal: 0,
    }
}

fn calls(node: Node) -> Reply
    ensures { result ≡ calls node }
{
    Reply {
        command: Command::Pulse,
        ..silent(node)
    }
}

fn refuse(node: Node, refusal: Refusal) -> Reply
    ensures { result ≡ refuse node (number refusal) }
{
    Reply {
        refusal: refusal.number(),
        ..silent(node)
    }
}

fn is_right(event: Event) -> bool
    ensures { result ≡ event_right event }
{
    match event {
        Event::Request(reqid) | Event::SendAsk(reqid) => (reqid as usize) < Row::REQIDS,
        _ => true,
    }
}

impl Event {
    // The ReqId whose row an event asks a plan for.
    pub fn reqid(self) -> Option<u8>
        ensures { result ≡ reqid_asked self }
    {
        match self {
            Event::Request(reqid) | Event::SendAsk(reqid) => Some(reqid),
            _ => None,
        }
    }
}

// The row that an event asks a plan for.
fn row_asked(plan: Plan, event: Event) -> Option<Row>
    ensures { result ≡ row_asked plan event }
{
    set_plan::find_row(plan, event.reqid()?)
}

impl Node {
    // Sequence counts lie below this and follow each other modulo it.
    pub const COUNTS: u8 = Row::COUNTS;

    pub fn power_on(sleeps: bool) -> Node
        ensures { result ≡ power_on sleeps }
    {
        Node {
            state: start_state(sleeps),
            permission: false,
            error: false,
            wake: false,
            heard: false,
            caller: false,
            quiet: 0,
            delay: None,
            standby: 0,
            counts: [0; Row::REQIDS],
        }
    }

    fn to_sleep(self) -> Node
        ensures { result ≡ to_sleep self }
    {
        Node {
            permission: self.permission,
            ..Node::power_on(true)
        }
    }

    fn to_normal(self) -> Node
        ensures { result ≡ to_normal self }
    {
        Node {
            state: State::Normal,
            error: false,
            heard: false,
            caller: false,
            quiet: 0,
            delay: None,
            standby: 0,
            counts: [0; Row::REQIDS],
            ..self
        }
    }

    fn to_standby(self, caller: bool) -> Node
        ensures { result ≡ to_standby self caller }
    {
        Node {
            state: State::Standby,
            caller,
            standby: 0,
            ..self
        }
    }

    // What an event does once plan, state and event are judged.
    fn act_with(
        self,
        sleeps: bool,
        times: Times,
        me: u8,
        polled: bool,
        row: Option<Row>,
        event: Event,
    ) -> Reply
        ensures { result ≡ act_with sleeps times me polled row self event }
    {
        match event {
            Event::Tick(clock) => self.tick(sleeps, times, clock),
            Event::Pulse => self.pulse(),
            Event::WakeAsk => self.wake_ask(sleeps),
            Event::Permission(permitted) => self.permit(sleeps, permitted),
            Event::SleepMessage => self.sleep_message(sleeps),
            Event::Request(_) => self.request(me, row),
            Event::SendAsk(_) => self.send_ask(me, polled, row),
        }
    }

    // A step of node number `me` with what it needs of a plan that is judged: the row is the one that the event asks for.
    pub fn step_with(
        self,
        sleeps: bool,
        nodecount: u8,
        times: Times,
        me: u8,
        polled: bool,
        row: Option<Row>,
        event: Event,
    ) -> Reply
        ensures { result ≡ step_with sleeps nodecount times me polled row self event }
    {
        if nodecount <= me || !self.in_range(sleeps, times) {
            refuse(self, Refusal::NoState)
        } else if is_right(event) {
            self.act_with(sleeps, times, me, polled, row, event)
        } else {
            refuse(self, Refusal::NoEvent)
        }
    }

    // A step of node number `me` under a plan that is judged.
    pub fn step_under(self, plan: Plan, me: u8, event: Event) -> Reply
        ensures { result ≡ step_under plan me self event }
    {
        let times = plan.times;
        let row = row_asked(plan, event);
        let polled = plan.is_polled(me);
        self.step_with(plan.sleeps(), plan.nodecount, times, me, polled, row, event)
    }

    // A step of node number `me` under a plan.
    pub fn step(self, plan: Plan, me: u8, event: Event) -> Reply
        ensures { result ≡ node_step plan me self event }
    {
        match judge(plan) {
            Ok(()) => self.step_under(plan, me, event),
            Err(refusal) => refuse(self, refusal),
        }
    }
}
