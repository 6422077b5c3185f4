// Why the master is awake after a drill's moves: the drill's lines, then one more.
#![tactic(auto)]

fn main(rt: HostRuntime) {
    program_files::with_set(
        &rt,
        b"why",
        b"Reads moves from standard input and prints the drill's lines, then one more: why the master is\n\
awake after the last move. drill --help has the moves.\n",
        |set| {
            let _ = program_drill::why(&rt, b"why", set, &mut rt.stdin());
        },
    );
}
