// Wake-up pulses that reach the others.
ghost use Rattle.std.specs.Prelude.{◌≡◌};
ghost use Rattle.bus_nodes.specs.Nodes.{nodes_used};
ghost use Rattle.bus.specs.Pulses.{spread};

use crate::{Bus, World};
use bus_nodes::{Callers, Message, any_called, reach_all};

impl World {
    // Pulses reach the others or are lost.
    pub(crate) fn spread(mut self, nodecount: u8, callers: Callers, bus: Bus) -> World
        ensures { result ≡ spread (nodes_used nodecount) callers bus self }
    {
        if !any_called(callers) {
            return self;
        }
        self.nodes = reach_all(self.nodes, nodecount, bus.hearing, Message::Pulse(callers));
        if bus.master {
            self.master = self.master.wake_up().master;
        }
        self
    }
}
