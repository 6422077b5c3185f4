// The master's events and replies as records of numbers.
#![tactic(auto)]

ghost use Rattle.std.specs.Prelude.{◌≡◌};
ghost use Rattle.machine_events.specs.Events.{no_event, plain_event, flagged_event, answer_event, event_of};
ghost use Rattle.machine_events.specs.Replies.{command_number};

use machine_master::{Answer, Command, Event};

// An event of the master, for C, which lends lists of them: so each field is a number, and can hold a wrong one; those that a kind does not use
// are ignored.
#[repr(C)]
#[derive(Clone, Copy)]
pub struct EventRecord {
    pub kind: u8,
    // of an answer, up to its wake bit
    pub reqid: u8,
    pub result: u16,
    pub length: u16,
    pub count: u8,
    pub permission: u8,
    pub wake: u8,
    // of the own permission: 1 yes, 0 no; of a send result: 1 sent, 0 failed
    pub flag: u8,
}

// What a step gives beside the master, in numbers for C.
#[repr(C)]
#[derive(Clone, Copy)]
pub struct ReplyRecord {
    pub refusal: u8,
    // the node that 20 names
    pub node: u8,
    pub command: u8,
    // answers lost before this one
    pub lost: u8,
}

// Refused as 15 by each step.
pub fn no_event() -> Event
    ensures { result ≡ no_event }
{
    Event::Answer(Answer {
        reqid: 255,
        result: 0,
        length: 0,
        count: 0,
        permission: false,
        wake: false,
    })
}

// The event of a kind that has nothing else.
pub fn plain_event(kind: u8) -> Event
    ensures { result ≡ plain_event kind }
{
    match kind {
        0 => Event::Tick,
        2 => Event::Pulse,
        3 => Event::WakeAsk,
        5 => Event::SleepAsk,
        _ => no_event(),
    }
}

// The event of a kind that has a flag.
pub fn flagged_event(kind: u8, flag: u8) -> Event
    ensures { result ≡ flagged_event kind flag }
{
    if flag < 2 {
        match kind {
            4 => Event::Permission(flag == 1),
            6 => Event::SendResult(flag == 1),
            _ => no_event(),
        }
    } else {
        no_event()
    }
}

pub fn answer_event(event: EventRecord) -> Event
    ensures { result ≡ answer_event event }
{
    if (event.permission < 2) & (event.wake < 2) {
        return Event::Answer(Answer {
            reqid: event.reqid,
            result: event.result,
            length: event.length,
            count: event.count,
            permission: event.permission == 1,
            wake: event.wake == 1,
        });
    }
    no_event()
}

// The event of a record; of one that is no event an event that each step refuses as 15.
pub fn event_of(event: EventRecord) -> Event
    ensures { result ≡ event_of event }
{
    match event.kind {
        1 => answer_event(event),
        4 | 6 => flagged_event(event.kind, event.flag),
        _ => plain_event(event.kind),
    }
}

// By its place in the enum: 0 nothing, 1 clock on, 2 clock off, 3 sleep message.
pub fn command_number(command: Command) -> u8
    ensures { result ≡ command_number command }
{
    command as u8
}
