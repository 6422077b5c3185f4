// Recorded moves to text: for each record the drill's line of its move, or `?` where it is no move.
#![tactic(auto)]

ghost use Rattle.std.specs.Prelude.{◌≡◌};
ghost use Rattle.base_text.specs.Text.{wrote, Counts};
ghost use Rattle.drill_replay.specs.Replay.{started, replayed, printed, Gives};

use base_text::Writer;
use bus::World;
use bus_moves::{is_move, move_of, record_at, record_count};
use drill_text::{append_bad, append_move};
use set_plan::Plan;

#[derive(Clone, Copy)]
pub struct Replay {
    pub plan: Plan,
    pub world: World,
    // records so far
    pub count: u64,
}

// A replay after a piece of input, and how many bytes of text the piece gave.
#[derive(Clone, Copy)]
pub struct Fed {
    pub replay: Replay,
    pub length: usize,
}

impl Replay {
    // From power-on.
    pub fn start(plan: Plan) -> Replay
        ensures { result ≡ started plan }
    {
        Replay {
            plan,
            world: World::power_on(plan.sleeps()),
            count: 0,
        }
    }

    fn feed_from(self, input: &[u8], out: &mut Writer<'_>) -> Replay
        ensures state { result ≡ replayed self input.now }
        ensures text { out.new ≡ wrote (printed self input.now) out.old }
    {
        let plan = self.plan;
        let mut world = self.world;
        let mut count = self.count;
        for k in 0..record_count(input) {
            let bytes = record_at(input, k);
            count = count.wrapping_add(1);
            if is_move(bytes) {
                let moved = world.act(plan, move_of(bytes));
                world = moved.world;
                append_move(out, count, &world, plan.nodecount, moved.refusal);
            } else {
                append_bad(out, count);
            }
        }
        Replay { plan, world, count }
    }

    // A piece more of the input, of whole records but for a last piece. Its text stands at the front of the buffer, as far as there is
    // room: 80 places for each record are enough.
    #[tactic(auto, unfolding(base_text::specs::Text::wrote))]
    pub fn feed(self, input: &[u8], out: &mut [u8]) -> Fed
        ensures gives { Gives (replayed self input.now) (printed self input.now) out.old out.new result }
        ensures counts { Counts result.length out.new }
    {
        let mut text = Writer::new(out);
        let replay = self.feed_from(input, &mut text);
        Fed {
            replay,
            length: text.length(),
        }
    }
}
