// A test of the running bus. Of each file of moves that an argument names it prints the name, the refusal, and the states of the
// master, with its phase, and of both nodes, `!` for an error; then the same under the plan of panels that never sleep and under one
// whose rows have variable lengths, and at the end of the first file under a refused plan.
#![tactic(auto)]

use bus_moves::Ran;
use machine_node::Node;
use program_files::plan_in;
use set_plan::Plan;
use test_output::{print, print_number, print_state, print_status};

fn print_node(rt: &HostRuntime, node: Node) {
    let state = node.state;
    print(rt, b" ");
    print_state(rt, state);
    if node.error {
        print(rt, b"!");
    }
}

fn print_ran(rt: &HostRuntime, ran: Ran) {
    print(rt, b" ");
    print_number(rt, ran.refusal as u64);
    let world = ran.world;
    let master = world.master;
    let state = master.state;
    let phase = master.phase;
    print(rt, b" ");
    print_status(rt, state, phase);
    let nodes = world.nodes;
    print_node(rt, nodes[0]);
    print_node(rt, nodes[1]);
    print(rt, b"\n");
}

fn run_file(rt: &HostRuntime, argument: usize, plan: Plan) {
    let mut name = program_files::line_room();
    let name_length = program_files::argument(rt, argument, &mut name);
    print(rt, &name[..name_length]);
    let mut moves = program_files::text_room();
    let (Ok(count) | Err(count)) = program_files::read_file(
        rt,
        b"test_moves",
        &name[..name_length],
        &mut moves,
    );
    print_ran(rt, bus_moves::run(plan, &moves[..count]));
}

fn main(rt: HostRuntime) {
    let sleeps = plan_in(&rt, b"test_moves", b"sleeps.set");
    let never_sleeps = plan_in(&rt, b"test_moves", b"never_sleeps.set");
    let variable = plan_in(&rt, b"test_moves", b"variable.set");
    let count = program_files::argument_count(&rt);
    for i in 1..count {
        run_file(&rt, i, sleeps);
        run_file(&rt, i, never_sleeps);
        run_file(&rt, i, variable);
    }
    // No set can hold a refused plan.
    run_file(
        &rt,
        1,
        Plan {
            revision: 0,
            ..sleeps
        },
    );
}
