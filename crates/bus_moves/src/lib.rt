// Moves as bytes: a lent list of them run from power-on, and one by itself. Each is a record of 16 bytes, numbers big-endian:
//
//  0     act: 0 tick, 1 ask to wake of a node, 2 of the master, 3 permission of a node, 4 of the master, 5 request,
//        6 a node's ask to send, 7 sleep ask, 8 send result
//  1     node of acts 1, 3 and 6
//  2     ReqId of acts 5 and 6; permission or result of acts 3, 4 and 8, 1 for yes or sent, 0 for no or failed
//  3     what becomes of an answer: 0 whole, 1 damaged, 2 lost
//  4-5   nodes that a request or a sleep message reaches, bit i for node i
//  6-7   nodes that hear a wake-up pulse of another
//  8     1 if the master hears a wake-up pulse, else 0
//  9-10  result of a damaged answer; 11-12 its length; 13 its count; 14 its permission bit; 15 its wake bit;
//        11-12 also the length that a whole answer of a variable row is sent with, the row's own where they are above it
//
// Bytes 0, 3, 8, 14 and 15 are judged in every record, byte 2 in acts 3, 4 and 8; the others may be anything, also where the act does
// not read them.
#![tactic(auto)]

ghost use Rattle.std.specs.Prelude.{◌≡◌};
ghost use Rattle.base_refusals.specs.Numbers.{number};
ghost use Rattle.bus.specs.World.{power_on};
ghost use Rattle.bus_claims.specs.Claims.{Claims};
ghost use Rattle.bus_claims.specs.Reasons.{ReasonShown};
ghost use Rattle.bus_moves.specs.Records.{moves_of};
ghost use Rattle.bus_moves.specs.Lists.{step_of, ran_to, ran_over, run_of};

use base_refusals::Refusal;
use bus::{Moved, World, stays};
use set_plan::{Plan, judge};

mod decoding;
mod records;

pub use decoding::{is_move, move_of};
pub use records::{record_at, record_count};

// The bytes of a record.
pub const MOVE_LENGTH: usize = 16;

// The machines after a list of moves, or why it did not run. No Result: a refused run gives the machines at power-on too (`run_of`).
#[derive(Clone, Copy)]
pub struct Ran {
    pub refusal: u8,
    pub world: World,
}

// One move of a run. 3 to 8 for a refused plan, 11 for machines out of range, 15 for bytes that are no move.
pub fn step(plan: Plan, world: World, bytes: &[u8]) -> Moved
    ensures { result ≡ step_of plan world bytes.now }
{
    if let Err(refusal) = judge(plan) {
        return stays(world, refusal.number());
    }
    if !world.in_range(plan.sleeps(), plan.nodecount, plan.times) {
        return stays(world, Refusal::NoState.number());
    }
    if !is_move(bytes) {
        return stays(world, Refusal::NoEvent.number());
    }
    world.act(plan, move_of(bytes))
}

fn refused(refusal: Refusal, sleeps: bool) -> Ran
    ensures { result ≡ ran_to (number refusal) (power_on sleeps) }
{
    Ran {
        refusal: refusal.number(),
        world: World::power_on(sleeps),
    }
}

// Each record in turn. The plan is judged, and no world of a run is out of range, so each move is made at once.
fn run_all(plan: Plan, moves: &[u8]) -> Ran
    ensures { result ≡ ran_over plan moves.now }
{
    let mut world = World::power_on(plan.sleeps());
    for k in 0..record_count(moves) {
        let bytes = record_at(moves, k);
        if !is_move(bytes) {
            return refused(Refusal::NoEvent, plan.sleeps());
        }
        world = world.act(plan, move_of(bytes)).world;
    }
    Ran { refusal: 0, world }
}

// The world after a list of moves; demand 3 holds of it, and the reason told of its master is the one that the list shows.
// 3 to 8 for a refused plan, 15 for bytes that are no list of moves.
pub fn run(plan: Plan, moves: &[u8]) -> Ran
    ensures { (result ≡ run_of plan moves.now) × (result.refusal ≡ 0 → Claims plan (moves_of moves.now) × ReasonShown plan (moves_of moves.now)) }
{
    match judge(plan) {
        Ok(()) => run_all(plan, moves),
        Err(refusal) => refused(refusal, true),
    }
}
