// The drill: moves from standard input under a set.
#![tactic(auto)]

fn main(rt: HostRuntime) {
    program_files::with_set(
        &rt,
        b"drill",
        b"Reads moves from standard input, a line each, and prints a line for each: its number, the master's\n\
state and phase, the clock, the nodes' states, the refusal or 0. A refused set prints its number.\n\
Moves: tick, wake X, permit X 0, permit X 1, req R H, send X R H, sleep, sent ok, sent fail.\n\
X is a node's number or m, the master (not in send), R a ReqId, H ok, bad or lost.\n",
        |set| {
            let _ = program_drill::drill(&rt, b"drill", set, &mut rt.stdin());
        },
    );
}
