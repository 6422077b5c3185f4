// The master's events of bytes.
ghost use Rattle.std.specs.Prelude.{◌≡◌};
ghost use Rattle.packed_master.specs.Events.{event_of};

use machine_events::{EventRecord, answer_event, flagged_event, no_event, plain_event};
use machine_master::Event;

// The event of bytes; of bytes that are no event one that each step refuses as 15.
pub fn event_of(bytes: &[u8]) -> Event
    ensures { result ≡ event_of bytes.now }
{
    match bytes {
        [kind] => plain_event(*kind),
        [kind, flag] => flagged_event(*kind, *flag),
        [1, reqid, r0, r1, l0, l1, count, permission, wake] => answer_event(EventRecord {
            kind: 1,
            reqid: *reqid,
            result: u16::from_be_bytes([*r0, *r1]),
            length: u16::from_be_bytes([*l0, *l1]),
            count: *count,
            permission: *permission,
            wake: *wake,
            flag: 0,
        }),
        _ => no_event(),
    }
}
