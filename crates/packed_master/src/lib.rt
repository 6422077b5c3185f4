// The master's states, events and replies as bytes, and its step on them.
#![tactic(auto)]

mod events;
mod offsets;
mod replies;
mod states;
mod steps;

pub use events::event_of;
pub use offsets::{
    CAUSES_AT, COUNTS_AT, HOLDS_AT, LENGTH, PHASE_AT, REPLY_LENGTH, STATE_AT, TICKS_AT,
};
pub use replies::put_reply;
pub use states::{hold_of, master_of, put_master, put_power_on};
pub use steps::{row_for, step_on};
