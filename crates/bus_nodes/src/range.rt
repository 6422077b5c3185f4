// The limits of the nodes' fields.
ghost use Rattle.std.specs.Prelude.{◌≡◌};
ghost use Rattle.base_lists.specs.Bounded.{all_to};
ghost use Rattle.bus_nodes.specs.Nodes.{nodes_used, node_in_range};

use crate::nodes_used;
use machine_node::Node;
use set_plan::{Plan, Times};

pub fn nodes_in_range(nodes: [Node; Plan::NODES], sleeps: bool, nodecount: u8, times: Times) -> bool
    ensures { result ≡ all_to (node_in_range sleeps times nodes) (nodes_used nodecount) }
{
    nodes[..usize::from(nodes_used(nodecount))]
        .iter()
        .all(|node| node.in_range(sleeps, times))
}
