// A test of the running bus: replays recorded moves, records of 16 bytes from standard input, under the set in the file plan.set, each
// by a step that judges plan and machines. After each it writes a frame, for a comparison with a program that shares nothing with this:
//
//  0         0 a move, 1 no move
//  1         refusal, 0 for none or no move
//  2-202     the master, packed
//  203-2490  the sixteen nodes, packed
//
// For a refused set nothing is written.
#![tactic(auto)]

ghost use Rattle.std.specs.Prelude.{◌≤◌, length};

use base_bytes::put;
use bus::World;
use machine_node::Node;
use packed_master::put_master;
use packed_node::put_node;
use set_plan::Plan;
use std::ops::ControlFlow;

fn put_nodes(frame: &mut [u8], nodes: [Node; Plan::NODES])
    requires { 2491 ≤ length frame.old }
{
    for (k, node) in nodes.iter().enumerate() {
        put_node(&mut frame[203 + 143 * k..], *node);
    }
}

fn put_frame(frame: &mut [u8], kind: u8, refusal: u8, world: World)
    requires { 2491 ≤ length frame.old }
{
    let master = world.master;
    let nodes = world.nodes;
    put(frame, 0, &[kind, refusal]);
    put_master(&mut frame[2..], master);
    put_nodes(frame, nodes);
}

// Reads a record, which only the end of the input cuts short, and writes its frame.
fn step_on(
    rt: &HostRuntime,
    plan: Plan,
    world: World,
    input: &mut [u8],
    frame: &mut [u8],
) -> ControlFlow<(), World>
    requires { 2491 ≤ length frame.old }
{
    let count = program_files::read_input(rt, input);
    if count == 0 {
        return ControlFlow::Break(());
    }
    let moved = bus_moves::step(plan, world, &input[..count]);
    let next = moved.world;
    // The step gives 15 for bytes that are no move.
    let (kind, refusal) = if bus_moves::is_move(&input[..count]) {
        (0, moved.refusal)
    } else {
        (1, 0)
    };
    put_frame(frame, kind, refusal, next);
    match rt.write_all(&frame[..2491]) {
        Ok(()) => ControlFlow::Continue(next),
        Err(_) => ControlFlow::Break(()),
    }
}

fn run(rt: &HostRuntime, plan: Plan) {
    let mut input = [0; bus_moves::MOVE_LENGTH];
    let mut frame = [0; 2491];
    program_files::turns(World::power_on(plan.sleeps()), |world| {
        step_on(rt, plan, world, &mut input, &mut frame)
    });
}

fn main(rt: HostRuntime) {
    let mut set = program_files::set_room();
    let (Ok(count) | Err(count)) = program_files::read_file(
        &rt,
        b"test_states",
        b"plan.set",
        &mut set,
    );
    if let Ok(plan) = set_reader::read(&set[..count]) {
        run(&rt, plan);
    }
}
