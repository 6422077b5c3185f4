// A tick of all machines.
ghost use Rattle.std.specs.Prelude.{◌≡◌};
ghost use Rattle.bus_nodes.specs.Nodes.{nodes_used};
ghost use Rattle.machine_master.specs.Clock.{is_off};
ghost use Rattle.bus.specs.Ticks.{tick_move};

use crate::{Bus, Moved, Passed, World};
use bus_nodes::{Ticked, any_called, tick_nodes};
use machine_master::Command;
use machine_state::is_normal;
use set_plan::Times;

fn is_off(command: Command) -> bool
    ensures { result ≡ is_off command }
{
    command == Command::ClockOff
}

impl World {
    pub(crate) fn tick(self, sleeps: bool, nodecount: u8, times: Times, bus: Bus) -> Moved
        ensures { result ≡ tick_move sleeps times (nodes_used nodecount) bus self }
    {
        let reply = self.master.tick(times);
        let clock = is_normal(reply.master.state);
        let Ticked { nodes, callers } = tick_nodes(self.nodes, sleeps, nodecount, times, clock);
        let world = World {
            master: reply.master,
            nodes,
        };
        let called = any_called(callers);
        let passed = Passed::ticked(clock, is_off(reply.command), called & bus.master);
        // most ticks: the world goes on without the copies that a pulse costs
        if !called {
            return Moved {
                world,
                refusal: reply.refusal,
                passed,
            };
        }
        Moved {
            world: world.spread(nodecount, callers, bus),
            refusal: reply.refusal,
            passed,
        }
    }
}
