// A test of the drill. Its arguments are pairs of files, a set and a script of moves: of each pair it prints the names, then what
// the drill prints. tests/drills/make.py writes them.
#![tactic(auto)]

use test_output::print;

fn run(rt: &HostRuntime, set_argument: usize, argument: usize) {
    let mut set_name = program_files::line_room();
    let set_length = program_files::argument(rt, set_argument, &mut set_name);
    let mut name = program_files::line_room();
    let length = program_files::argument(rt, argument, &mut name);
    print(rt, &set_name[..set_length]);
    print(rt, b" ");
    print(rt, &name[..length]);
    print(rt, b"\n");
    let mut set = program_files::set_room();
    let (Ok(count) | Err(count)) = program_files::read_file(
        rt,
        b"test_drills",
        &set_name[..set_length],
        &mut set,
    );
    let Ok(mut file) = program_files::open(rt, &name[..length]) else {
        print(rt, b"no script\n");
        return;
    };
    let _ = program_drill::drill(rt, b"test_drills", &set[..count], &mut file);
}

fn main(rt: HostRuntime) {
    let count = program_files::argument_count(&rt);
    // The program's own name stands before the pairs.
    for pair in 0..count.saturating_sub(1) / 2 {
        run(&rt, 2 * pair + 1, 2 * pair + 2);
    }
}
