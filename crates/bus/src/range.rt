// The limits of all machines' fields.
ghost use Rattle.std.specs.Prelude.{◌≡◌};
ghost use Rattle.bus.specs.Range.{world_in_range};

use crate::World;
use bus_nodes::nodes_in_range;
use set_plan::Times;

impl World {
    #[tactic(auto, unfolding(crate::specs::Range::world_in_range))]
    pub fn in_range(self, sleeps: bool, nodecount: u8, times: Times) -> bool
        ensures { result ≡ world_in_range sleeps nodecount times self }
    {
        self.master.in_range(sleeps, nodecount, times)
            & nodes_in_range(self.nodes, sleeps, nodecount, times)
    }
}
