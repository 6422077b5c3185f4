// Requests, answers and the sleep message.
ghost use Rattle.std.specs.Prelude.{◌≡◌, ◌<◌};
ghost use Rattle.set_plan.specs.Limits.{max_nodes};
ghost use Rattle.bus_nodes.specs.Nodes.{nodes_used};
ghost use Rattle.base_refusals.specs.Numbers.{number_of};
ghost use Rattle.bus.specs.Messages.{fate_right, message_refusal, sent_length, carried, unanswered, deliver, publish, request_move, send_row, send_ask_move, sending_by, sleep_ask_move, send_result_move};

use crate::{Bus, Delivered, Fate, Moved, Passed, World, stays};
use base_refusals::Refusal;
use bus_nodes::{Message, nodes_used, reach_all};
use machine_master::{Answer, Master};
use machine_node::{Command, Reply};
use machine_state::{State, is_normal};
use set_plan::{Plan, Row};

fn fate_right(fate: Fate) -> bool
    ensures { result ≡ fate_right fate }
{
    match fate {
        Fate::Damaged(damage) => (damage.result != 0) & (damage.count < Row::COUNTS),
        Fate::Whole(_) | Fate::Lost => true,
    }
}

// Whether a request or an answer can move at all.
fn judge_message(reqid: u8, fate: Fate, master: State) -> Result<(), Refusal>
    ensures { number_of result ≡ message_refusal reqid fate master }
{
    Refusal::NoEvent.unless((reqid as usize) < Row::REQIDS)?;
    Refusal::NoEvent.unless(fate_right(fate))?;
    Refusal::NeedsNormal.unless(is_normal(master))
}

// The length of a whole answer.
fn sent_length(row: Row, length: u16) -> u16
    ensures { result ≡ sent_length row length }
{
    let own = row.length as u16;
    if row.is_variable() & (length <= own) {
        length
    } else {
        own
    }
}

fn carried(fate: Fate, row: Row, command: Command) -> Option<(Row, Answer)>
    ensures { result ≡ carried fate row command }
{
    let Command::Send {
        permission,
        wake,
        count,
    } = command
    else {
        return None;
    };
    match fate {
        Fate::Whole(length) => Some((
            row,
            Answer {
                reqid: row.reqid,
                result: 0,
                length: sent_length(row, length),
                count,
                permission,
                wake,
            },
        )),
        Fate::Damaged(damage) => Some((
            row,
            Answer {
                reqid: row.reqid,
                result: damage.result,
                length: damage.length,
                count: damage.count,
                permission: damage.permission,
                wake: damage.wake,
            },
        )),
        Fate::Lost => None,
    }
}

fn unanswered(master: Master, refusal: u8) -> Delivered
    ensures { result ≡ unanswered master refusal }
{
    Delivered {
        master,
        refusal,
        passed: Passed::nothing(),
    }
}

// What a publisher sent goes on to the master.
fn deliver(master: Master, row: Row, fate: Fate, reply: Reply) -> Delivered
    ensures { result ≡ deliver row fate reply master }
{
    if reply.refusal != 0 {
        return unanswered(master, reply.refusal);
    }
    match carried(fate, row, reply.command) {
        None => unanswered(master, 0),
        Some((of, answer)) => {
            let told = master.answer(Some(of), answer);
            Delivered {
                master: told.master,
                refusal: told.refusal,
                passed: Passed::answered(of, answer),
            }
        }
    }
}

fn sending_by(command: machine_master::Command) -> Passed
    ensures { result ≡ sending_by command }
{
    if command == machine_master::Command::SleepMessage {
        Passed::sending()
    } else {
        Passed::nothing()
    }
}

impl World {
    // A request of a row reaches the nodes of a set; its publisher, if it is one of them, answers by the one step that it makes.
    fn publish(self, nodecount: u8, row: Row, bus: Bus) -> Moved
        ensures { result ≡ publish (nodes_used nodecount) row bus self }
    {
        let publisher = row.publisher;
        let mut nodes = self.nodes;
        let mut reached = bus.reached;
        let mut told = unanswered(self.master, 0);
        if publisher < nodes_used(nodecount) && reached[publisher as usize] {
            let reply = nodes[publisher as usize].request(publisher, Some(row));
            nodes[publisher as usize] = reply.node;
            reached[publisher as usize] = false;
            told = deliver(self.master, row, bus.fate, reply);
        }
        Moved {
            world: World {
                master: told.master,
                nodes: reach_all(nodes, nodecount, reached, Message::Request(Some(row))),
            },
            refusal: told.refusal,
            passed: told.passed,
        }
    }

    pub(crate) fn request(self, plan: Plan, reqid: u8, bus: Bus) -> Moved
        ensures { result ≡ request_move plan (nodes_used plan.nodecount) reqid bus self }
    {
        if let Err(refusal) = judge_message(reqid, bus.fate, self.master.state) {
            return stays(self, refusal.number());
        }
        match set_plan::find_row(plan, reqid) {
            None => stays(self, Refusal::NoReqId.number()),
            Some(row) => self.publish(plan.nodecount, row, bus),
        }
    }

    // A node's own sending of a row.
    fn send(mut self, node: u8, polled: bool, row: Row, fate: Fate) -> Moved
        requires { node < max_nodes }
        ensures { result ≡ send_row node polled row fate self }
    {
        let reply = self.nodes[node as usize].send_ask(node, polled, Some(row));
        self.nodes[node as usize] = reply.node;
        let told = deliver(self.master, row, fate, reply);
        Moved {
            world: World {
                master: told.master,
                ..self
            },
            refusal: told.refusal,
            passed: told.passed,
        }
    }

    pub(crate) fn send_ask(self, plan: Plan, node: u8, reqid: u8, bus: Bus) -> Moved
        ensures { result ≡ send_ask_move plan (nodes_used plan.nodecount) node reqid bus self }
    {
        if nodes_used(plan.nodecount) <= node {
            return stays(self, Refusal::NoState.number());
        }
        if let Err(refusal) = judge_message(reqid, bus.fate, self.master.state) {
            return stays(self, refusal.number());
        }
        match set_plan::find_row(plan, reqid) {
            None => stays(self, Refusal::NoReqId.number()),
            Some(row) => self.send(node, plan.is_polled(node), row, bus.fate),
        }
    }

    pub(crate) fn sleep_ask(self, sleeps: bool, nodecount: u8) -> Moved
        ensures { result ≡ sleep_ask_move sleeps nodecount self }
    {
        let reply = self.master.sleep_ask(sleeps, nodecount);
        Moved {
            world: World {
                master: reply.master,
                ..self
            },
            refusal: reply.refusal,
            passed: sending_by(reply.command),
        }
    }

    pub(crate) fn send_result(self, nodecount: u8, sent: bool, bus: Bus) -> Moved
        ensures { result ≡ send_result_move (nodes_used nodecount) sent bus self }
    {
        let reply = self.master.send_result(sent);
        if reply.refusal != 0 {
            return stays(self, reply.refusal);
        }
        Moved {
            world: World {
                master: reply.master,
                nodes: reach_all(self.nodes, nodecount, bus.reached, Message::SleepMessage),
            },
            refusal: 0,
            passed: Passed::slept(sent, bus.reached),
        }
    }
}
