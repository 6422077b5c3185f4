// Messages of a node: the sleep message, requests, and its own sending.
ghost use Rattle.std.specs.Prelude.{◌≡◌};
ghost use Rattle.machine_node.specs.Changes.{next_count};
ghost use Rattle.machine_node.specs.Sending.{sleep_message_step, send_step, request_row, request_step, send_own, send_ask_row, send_ask_step};

use crate::{Command, Node, Reply, refuse, silent};
use base_refusals::Refusal;
use machine_state::{count_of, is_normal, with_count};
use set_plan::Row;

fn next_count(count: u8) -> u8
    ensures { result ≡ next_count count }
{
    if count < Node::COUNTS - 1 {
        count + 1
    } else {
        0
    }
}

impl Node {
    pub fn sleep_message(self, sleeps: bool) -> Reply
        ensures { result ≡ sleep_message_step sleeps self }
    {
        if !is_normal(self.state) {
            refuse(self, Refusal::NeedsNormal)
        } else if !sleeps {
            refuse(self, Refusal::NeverSleeps)
        } else {
            silent(Node {
                delay: Some(0),
                ..self
            })
        }
    }

    // Sends the row of a ReqId.
    fn send(self, reqid: u8) -> Reply
        ensures { result ≡ send_step reqid self }
    {
        let count = count_of(self.counts, reqid);
        let counts = with_count(self.counts, reqid, next_count(count));
        let command = Command::Send {
            permission: self.permission,
            wake: self.wake,
            count,
        };
        Reply {
            node: Node {
                wake: false,
                counts,
                ..self
            },
            command,
            refusal: 0,
        }
    }

    fn request_row(mut self, me: u8, row: Option<Row>) -> Reply
        ensures { result ≡ request_row me row self }
    {
        match row {
            None => refuse(self, Refusal::NoReqId),
            Some(found) => {
                self.heard = true;
                if found.publisher == me {
                    self.send(found.reqid)
                } else {
                    silent(self)
                }
            }
        }
    }

    // The master's request of a ReqId, with what the plan has for it.
    pub fn request(self, me: u8, row: Option<Row>) -> Reply
        ensures { result ≡ request_step me row self }
    {
        if is_normal(self.state) {
            self.request_row(me, row)
        } else {
            refuse(self, Refusal::NeedsNormal)
        }
    }

    fn send_own(self, polled: bool, reqid: u8) -> Reply
        ensures { result ≡ send_own polled reqid self }
    {
        if polled & !self.heard {
            refuse(self, Refusal::NotAsked)
        } else {
            self.send(reqid)
        }
    }

    fn send_ask_row(self, me: u8, polled: bool, row: Option<Row>) -> Reply
        ensures { result ≡ send_ask_row me polled row self }
    {
        match row {
            None => refuse(self, Refusal::NoReqId),
            Some(found) => {
                if found.publisher == me {
                    self.send_own(polled, found.reqid)
                } else {
                    refuse(self, Refusal::NoReqId)
                }
            }
        }
    }

    // The application's ask to send a ReqId, with what the plan has for it.
    pub fn send_ask(self, me: u8, polled: bool, row: Option<Row>) -> Reply
        ensures { result ≡ send_ask_step me polled row self }
    {
        if is_normal(self.state) {
            self.send_ask_row(me, polled, row)
        } else {
            refuse(self, Refusal::NeedsNormal)
        }
    }
}
