// The drill: input in pieces of any length to the text that it prints.
#![tactic(auto)]

ghost use Rattle.std.specs.Prelude.{◌≡◌};
ghost use Rattle.base_text.specs.Text.{wrote, Counts};
ghost use Rattle.drill_line.specs.Parse.{parse_line};
ghost use Rattle.drill_feed.specs.Feed.{empty_held, hold_byte, held_text, started, fed, printed, last_fed, last_printed, GivesFirst};

use base_text::Writer;
use bus::World;
use drill_line::{LineMove, on_drill_bus};
use drill_text::{append_bad, append_move};
use set_plan::Plan;

// The first bytes of a line that has not ended. Longer lines are no moves, so the others are not missed.
// Bytes with a count beside them, without a heap: the library's ArrayVec is not Copy, as a drill is.
#[derive(Clone, Copy)]
pub struct Held {
    pub bytes: [u8; Held::ROOM],
    pub count: usize,
}

#[derive(Clone, Copy)]
pub struct Drill {
    pub plan: Plan,
    pub world: World,
    // lines so far
    pub lines: u64,
    pub held: Held,
}

// A drill after a piece of input, and how many bytes of text the piece gave.
#[derive(Clone, Copy)]
pub struct Fed {
    pub drill: Drill,
    pub length: usize,
}

impl Held {
    // As many bytes of a line are held.
    pub const ROOM: usize = 32;

    fn empty() -> Held
        ensures { result ≡ empty_held }
    {
        Held {
            bytes: [0; Held::ROOM],
            count: 0,
        }
    }

    // One byte more of the line, if there is room.
    fn hold(&mut self, byte: u8)
        ensures { self.new ≡ hold_byte self.old byte }
    {
        if self.count < Held::ROOM {
            self.bytes[self.count] = byte;
            self.count += 1;
        }
    }

    fn line(self, nodecount: u8) -> Option<LineMove>
        ensures { result ≡ parse_line (held_text self) nodecount }
    {
        drill_line::parse(&self.bytes[..self.count.min(Held::ROOM)], nodecount)
    }
}

impl Drill {
    // From power-on.
    pub fn start(plan: Plan) -> Drill
        ensures { result ≡ started plan }
    {
        Drill {
            plan,
            world: World::power_on(plan.sleeps()),
            lines: 0,
            held: Held::empty(),
        }
    }

    // Its parts go by themselves, and a move is made here, so that a line copies the world as seldom as can be.
    fn feed_from(self, input: &[u8], out: &mut Writer<'_>) -> Drill
        ensures state { result ≡ fed self input.now }
        ensures text { out.new ≡ wrote (printed self input.now) out.old }
    {
        let plan = self.plan;
        let mut world = self.world;
        let mut lines = self.lines;
        let mut held = self.held;
        for byte in input {
            if *byte != b'\n' {
                held.hold(*byte);
                continue;
            }
            lines = lines.wrapping_add(1);
            match held.line(plan.nodecount) {
                None => append_bad(out, lines),
                Some(line) => {
                    let moved = world.act(plan, on_drill_bus(line.act, line.reached, line.fate));
                    world = moved.world;
                    append_move(out, lines, &world, plan.nodecount, moved.refusal);
                }
            }
            held = Held::empty();
        }
        Drill {
            plan,
            world,
            lines,
            held,
        }
    }

    // A piece more of the input. Its text stands at the front of the buffer, as far as there is room: 80 places for each byte are enough.
    #[tactic(auto, unfolding(base_text::specs::Text::wrote))]
    pub fn feed(self, input: &[u8], out: &mut [u8]) -> Fed
        ensures gives_first { GivesFirst (fed self input.now) (printed self input.now) out.old out.new result }
        ensures counts { Counts result.length out.new }
    {
        let mut text = Writer::new(out);
        let drill = self.feed_from(input, &mut text);
        Fed {
            drill,
            length: text.length(),
        }
    }

    // The end of the input: a last line that lacks its LF.
    pub fn finish(self, out: &mut [u8]) -> Fed
        ensures gives_first { GivesFirst (last_fed self) (last_printed self) out.old out.new result }
        ensures counts { Counts result.length out.new }
    {
        if self.held.count == 0 {
            return Fed {
                drill: self,
                length: 0,
            };
        }
        // One loop over lines alone: the compiler then makes one function of all and leaves copies of the world out.
        self.feed(b"\n", out)
    }
}
