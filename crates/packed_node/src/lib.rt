// A node's states, events and replies as bytes.
#![tactic(auto)]

mod events;
mod offsets;
mod replies;
mod states;

pub use events::event_of;
pub use offsets::{LENGTH, REPLY_LENGTH};
pub use replies::put_reply;
pub use states::{node_of, put_node, put_power_on};
