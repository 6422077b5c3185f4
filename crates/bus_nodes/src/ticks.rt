// A tick of the nodes.
ghost use Rattle.std.specs.Prelude.{◌≡◌};
ghost use Rattle.bus_nodes.specs.Nodes.{nodes_used};
ghost use Rattle.bus_nodes.specs.Resting.{rests};
ghost use Rattle.bus_nodes.specs.Ticks.{tick_nodes};

use crate::pulses::with_caller;
use crate::{Callers, Ticked, nodes_used};
use machine_node::Node;
use machine_state::State;
use set_plan::{Plan, Times};

// Whether a tick leaves a node as it is: in Normal with clock and nothing to clear or to count, or asleep without clock.
fn rests(node: Node, clock: bool) -> bool
    ensures { result ≡ rests clock node }
{
    match (node.state, node.delay) {
        (State::Normal, None) => clock & !node.error & (node.quiet == 0),
        (State::Normal, Some(_)) | (State::Standby, _) => false,
        (State::Sleep, _) => !clock,
    }
}

// A node is read after its test, so that those that rest, most of them in most ticks, are not copied.
pub fn tick_nodes(
    mut nodes: [Node; Plan::NODES],
    sleeps: bool,
    nodecount: u8,
    times: Times,
    clock: bool,
) -> Ticked
    ensures { result ≡ tick_nodes sleeps times clock (nodes_used nodecount) nodes }
{
    let mut callers = Callers::Nobody;
    for i in 0..nodes_used(nodecount) {
        if rests(nodes[i as usize], clock) {
            continue;
        }
        let reply = nodes[i as usize].tick(sleeps, times, clock);
        callers = with_caller(callers, i, reply.command);
        nodes[i as usize] = reply.node;
    }
    Ticked { nodes, callers }
}
