// Who sends a wake-up pulse in a move, and messages that reach a set of nodes.
ghost use Rattle.std.specs.Prelude.{◌≡◌};
ghost use Rattle.bus_nodes.specs.Nodes.{nodes_used};
ghost use Rattle.bus_nodes.specs.Pulses.{with_caller, any_called, other_called, receive, reach_all};
ghost use Rattle.bus_nodes.specs.Resting.{ignores_row, ignores, untouched};

use crate::{Callers, Message, nodes_used};
use machine_node::{Command, Node};
use machine_state::is_normal;
use set_plan::{Plan, Row};

pub fn with_caller(callers: Callers, node: u8, command: Command) -> Callers
    ensures { result ≡ with_caller callers node command }
{
    match (command, callers) {
        (Command::Nothing | Command::Send { .. }, _) => callers,
        (Command::Pulse, Callers::Nobody) => Callers::One(node),
        (Command::Pulse, _) => Callers::Several,
    }
}

pub fn any_called(callers: Callers) -> bool
    ensures { result ≡ any_called callers }
{
    callers != Callers::Nobody
}

fn other_called(callers: Callers, node: u8) -> bool
    ensures { result ≡ other_called callers node }
{
    match callers {
        Callers::Nobody => false,
        Callers::One(caller) => caller != node,
        Callers::Several => true,
    }
}

fn receive(node: Node, me: u8, message: Message) -> Node
    ensures { result ≡ receive message me node }
{
    match message {
        Message::Pulse(callers) if other_called(callers, me) => node.pulse().node,
        Message::Pulse(_) => node,
        Message::Request(row) => node.request(me, row).node,
        // a master sends one only where machines sleep
        Message::SleepMessage => node.sleep_message(true).node,
    }
}

// Whether a request leaves node `me` in Normal as it is: of no row, or of another's after one was heard.
fn ignores_row(node: Node, me: u8, row: Option<Row>) -> bool
    ensures { result ≡ ignores_row row me node }
{
    row.is_none_or(|found| node.heard & (found.publisher != me))
}

// Whether a message that reaches node `me` leaves it as it is.
fn ignores(node: Node, me: u8, message: Message) -> bool
    ensures { result ≡ ignores message me node }
{
    let normal = is_normal(node.state);
    match message {
        Message::Pulse(_) => normal,
        Message::Request(row) => !normal | ignores_row(node, me, row),
        Message::SleepMessage => !normal,
    }
}

// Whether a message leaves node `me` as it is, reached or not.
fn untouched(reached: bool, node: Node, me: u8, message: Message) -> bool
    ensures { result ≡ untouched reached message me node }
{
    !reached | ignores(node, me, message)
}

// A message reaches those of a plan's nodes that are in a set. A node is read after its test, so that one that the message
// leaves as it is, is not copied.
pub fn reach_all(
    mut nodes: [Node; Plan::NODES],
    nodecount: u8,
    reached: [bool; Plan::NODES],
    message: Message,
) -> [Node; Plan::NODES]
    ensures { result ≡ reach_all message reached (nodes_used nodecount) nodes }
{
    for i in 0..nodes_used(nodecount) {
        if untouched(reached[i as usize], nodes[i as usize], i, message) {
            continue;
        }
        nodes[i as usize] = receive(nodes[i as usize], i, message);
    }
    nodes
}
