// The master machine.
#![tactic(auto)]

ghost use Rattle.std.specs.Prelude.{◌≡◌};
ghost use Rattle.base_refusals.specs.Numbers.{number};
ghost use Rattle.machine_master.specs.Changes.{power_on, silent, commands, refuse};
ghost use Rattle.machine_master.specs.Step.{event_right, reqid_asked, row_asked, act_with, step_in_range, step_with, step_under, judged_step, master_step};

use base_refusals::{Refusal, number_of};
use machine_state::{State, start_state};
use set_plan::{Plan, Row, Times, judge};

mod answers;
mod causes;
mod holds;
mod range;
mod sleeping;
mod ticks;
mod waking;

pub use answers::lost_after;
pub use holds::{first_not_held, older};

// How far a sleep message has come.
#[derive(Clone, Copy, PartialEq, Eq)]
pub enum Phase {
    Open,
    // its result is awaited
    Sending,
    // called back, its result still awaited
    Withdrawn,
    // sent: the clock stops after D ticks
    Closing,
}

#[derive(Clone, Copy, PartialEq, Eq)]
pub enum Command {
    Nothing,
    ClockOn,
    ClockOff,
    SleepMessage,
}

// An answer that reached the master.
#[derive(Clone, Copy)]
pub struct Answer {
    pub reqid: u8,
    // 0 where it is undamaged
    pub result: u16,
    pub length: u16,
    pub count: u8,
    pub permission: bool,
    pub wake: bool,
}

#[derive(Clone, Copy)]
pub enum Event {
    Tick,
    Answer(Answer),
    // a wake-up pulse
    Pulse,
    // the application's ask to wake
    WakeAsk,
    // the application's permission to sleep
    Permission(bool),
    // the application's ask to send the sleep message
    SleepAsk,
    // whether the sleep message was sent
    SendResult(bool),
}

// A node's permission to sleep: held or not, and the ticks since it was given. No Option<u16>: `in_range` refuses an age that is not held, as 11.
#[derive(Clone, Copy)]
pub struct Hold {
    pub held: bool,
    pub age: u16,
}

#[derive(Clone, Copy)]
pub struct Master {
    pub state: State,
    pub phase: Phase,
    pub permission: bool,
    pub holds: [Hold; Plan::NODES],
    // why each permission is not held; NEW where it is, outside Normal and past the last node. No enum: `in_range` refuses a number above WAKE, as 11
    pub causes: [u8; Plan::NODES],
    // the last count per ReqId, NO_COUNT for none
    pub counts: [u8; Row::REQIDS],
    // ticks in Standby or Closing
    pub delay: u16,
    // the tick number, which returns to 0 after 4,294,967,295
    pub ticks: u32,
}

// What a step gives. No Result: a refused step hands back a master too, which a damaged answer or one of a wrong length has changed.
#[derive(Clone, Copy)]
pub struct Reply {
    pub master: Master,
    pub command: Command,
    pub refusal: u8,
    // the node that 20 names
    pub node: u8,
    // answers lost before this one
    pub lost: u8,
}

fn commands(master: Master, command: Command) -> Reply
    ensures { result ≡ commands command master }
{
    Reply {
        master,
        command,
        refusal: 0,
        node: 0,
        lost: 0,
    }
}

fn silent(master: Master) -> Reply
    ensures { result ≡ silent master }
{
    commands(master, Command::Nothing)
}

fn refuse(master: Master, refusal: Refusal) -> Reply
    ensures { result ≡ refuse master (number refusal) }
{
    Reply {
        refusal: refusal.number(),
        ..silent(master)
    }
}

fn is_right(event: Event) -> bool
    ensures { result ≡ event_right event }
{
    match event {
        Event::Answer(answer) => {
            ((answer.reqid as usize) < Row::REQIDS) & (answer.count < Row::COUNTS)
        }
        _ => true,
    }
}

impl Event {
    // The ReqId whose row an event asks a plan for.
    pub fn reqid(self) -> Option<u8>
        ensures { result ≡ reqid_asked self }
    {
        match self {
            Event::Answer(answer) => Some(answer.reqid),
            _ => None,
        }
    }
}

// The row that an event asks a plan for.
fn row_asked(plan: Plan, event: Event) -> Option<Row>
    ensures { result ≡ row_asked plan event }
{
    set_plan::find_row(plan, event.reqid()?)
}

impl Master {
    // Stands for no count, and lies past each.
    pub const NO_COUNT: u8 = 4;
    // A permission that is not held.
    pub const NO_HOLD: Hold = Hold {
        held: false,
        age: 0,
    };
    // The causes: no answer since Normal, or the last of the others.
    pub const NEW: u8 = 0;

    pub const REFUSED: u8 = 1;

    pub const AGED: u8 = 2;
    // also a wrong length
    pub const DAMAGED: u8 = 3;

    pub const WAKE: u8 = 4;

    pub fn power_on(sleeps: bool) -> Master
        ensures { result ≡ power_on sleeps }
    {
        Master {
            state: start_state(sleeps),
            phase: Phase::Open,
            permission: false,
            holds: [Master::NO_HOLD; Plan::NODES],
            causes: [Master::NEW; Plan::NODES],
            counts: [Master::NO_COUNT; Row::REQIDS],
            delay: 0,
            ticks: 0,
        }
    }

    // What an event does once plan, state and event are judged.
    fn act_with(
        self,
        sleeps: bool,
        nodecount: u8,
        times: Times,
        row: Option<Row>,
        event: Event,
    ) -> Reply
        ensures { result ≡ act_with sleeps nodecount times row self event }
    {
        match event {
            Event::Tick => self.tick(times),
            Event::Answer(answer) => self.answer(row, answer),
            Event::Pulse | Event::WakeAsk => self.wake_up(),
            Event::Permission(permitted) => self.permit(permitted),
            Event::SleepAsk => self.sleep_ask(sleeps, nodecount),
            Event::SendResult(sent) => self.send_result(sent),
        }
    }

    // A step of a master that is in range, with what it needs of a plan that is judged: the row is the one that the event asks for.
    pub fn step_in_range(
        self,
        sleeps: bool,
        nodecount: u8,
        times: Times,
        row: Option<Row>,
        event: Event,
    ) -> Reply
        ensures { result ≡ step_in_range sleeps nodecount times row self event }
    {
        if is_right(event) {
            self.act_with(sleeps, nodecount, times, row, event)
        } else {
            refuse(self, Refusal::NoEvent)
        }
    }

    // The same of a master that is not judged yet.
    pub fn step_with(
        self,
        sleeps: bool,
        nodecount: u8,
        times: Times,
        row: Option<Row>,
        event: Event,
    ) -> Reply
        ensures { result ≡ step_with sleeps nodecount times row self event }
    {
        if self.in_range(sleeps, nodecount, times) {
            self.step_in_range(sleeps, nodecount, times, row, event)
        } else {
            refuse(self, Refusal::NoState)
        }
    }

    // A step of the master under a plan that is judged.
    pub fn step_under(self, plan: Plan, event: Event) -> Reply
        ensures { result ≡ step_under plan self event }
    {
        let times = plan.times;
        let row = row_asked(plan, event);
        self.step_with(plan.sleeps(), plan.nodecount, times, row, event)
    }

    // A step of the master under a plan whose refusal is known, 0 for none, so that a list of events has it judged once.
    pub fn step_judged(self, refusal: u8, plan: Plan, event: Event) -> Reply
        ensures { result ≡ judged_step refusal plan self event }
    {
        if refusal == 0 {
            self.step_under(plan, event)
        } else {
            Reply {
                refusal,
                ..silent(self)
            }
        }
    }

    // A step of the master under a plan.
    pub fn step(self, plan: Plan, event: Event) -> Reply
        ensures { result ≡ master_step plan self event }
    {
        self.step_judged(number_of(judge(plan)), plan, event)
    }
}
