// A node's events of bytes.
ghost use Rattle.std.specs.Prelude.{◌≡◌};
ghost use Rattle.packed_node.specs.Events.{no_event, plain_event, flagged_event, event_with, event_of};

use machine_node::Event;

// Refused as 15 by each step.
fn no_event() -> Event
    ensures { result ≡ no_event }
{
    Event::Request(255)
}

fn plain_event(kind: u8) -> Event
    ensures { result ≡ plain_event kind }
{
    match kind {
        1 => Event::Pulse,
        2 => Event::WakeAsk,
        4 => Event::SleepMessage,
        _ => no_event(),
    }
}

fn flagged_event(kind: u8, flag: u8) -> Event
    ensures { result ≡ flagged_event kind flag }
{
    match (kind, flag) {
        (0, 0 | 1) => Event::Tick(flag == 1),
        (3, 0 | 1) => Event::Permission(flag == 1),
        _ => no_event(),
    }
}

fn event_with(kind: u8, value: u8) -> Event
    ensures { result ≡ event_with kind value }
{
    match kind {
        5 => Event::Request(value),
        6 => Event::SendAsk(value),
        _ => flagged_event(kind, value),
    }
}

// The event of bytes; of bytes that are no event one that each step refuses as 15.
pub fn event_of(bytes: &[u8]) -> Event
    ensures { result ≡ event_of bytes.now }
{
    match bytes {
        [kind] => plain_event(*kind),
        [kind, value] => event_with(*kind, *value),
        _ => no_event(),
    }
}
