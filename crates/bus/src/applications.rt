// Moves of the applications: asks to wake and permissions.
ghost use Rattle.std.specs.Prelude.{◌≡◌};
ghost use Rattle.bus_nodes.specs.Nodes.{nodes_used};
ghost use Rattle.bus.specs.Applications.{node_wake_ask, master_wake_ask, node_permission, master_permission};

use crate::{Bus, Moved, Passed, World, stays};
use base_refusals::Refusal;
use bus_nodes::{Callers, any_called, nodes_used, with_caller};

impl World {
    pub(crate) fn node_wake_ask(mut self, sleeps: bool, nodecount: u8, node: u8, bus: Bus) -> Moved
        ensures { result ≡ node_wake_ask sleeps (nodes_used nodecount) node bus self }
    {
        if nodes_used(nodecount) <= node {
            return stays(self, Refusal::NoState.number());
        }
        let reply = self.nodes[node as usize].wake_ask(sleeps);
        let callers = with_caller(Callers::Nobody, node, reply.command);
        self.nodes[node as usize] = reply.node;
        Moved {
            world: self.spread(nodecount, callers, bus),
            refusal: reply.refusal,
            passed: Passed::asked(any_called(callers) & bus.master),
        }
    }

    pub(crate) fn master_wake_ask(self) -> Moved
        ensures { result ≡ master_wake_ask self }
    {
        let reply = self.master.wake_up();
        Moved {
            world: World {
                master: reply.master,
                ..self
            },
            refusal: reply.refusal,
            passed: Passed::asked(true),
        }
    }

    pub(crate) fn node_permission(
        mut self,
        sleeps: bool,
        nodecount: u8,
        node: u8,
        permitted: bool,
    ) -> Moved
        ensures { result ≡ node_permission sleeps (nodes_used nodecount) node permitted self }
    {
        if nodes_used(nodecount) <= node {
            return stays(self, Refusal::NoState.number());
        }
        let reply = self.nodes[node as usize].permit(sleeps, permitted);
        self.nodes[node as usize] = reply.node;
        Moved {
            world: self,
            refusal: reply.refusal,
            passed: Passed::node_permits(node, permitted),
        }
    }

    pub(crate) fn master_permission(self, permitted: bool) -> Moved
        ensures { result ≡ master_permission permitted self }
    {
        let reply = self.master.permit(permitted);
        Moved {
            world: World {
                master: reply.master,
                ..self
            },
            refusal: reply.refusal,
            passed: Passed::master_permits(permitted),
        }
    }
}
