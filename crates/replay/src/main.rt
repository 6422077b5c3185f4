// Replays recorded moves, records of 16 bytes from standard input, under a set: prints the drill's line of each.
#![tactic(auto)]

use drill_replay::Replay;
use std::ops::ControlFlow;

// Bytes of a piece, 800 records. Each gives at most 80 bytes of text, and program_files' text room has 65,536 places.
const PIECE_LENGTH: usize = 12800;

// Reads a piece, which only the end of the input cuts short, and prints what it gives.
fn read_on(
    rt: &HostRuntime,
    replay: Replay,
    input: &mut [u8],
    out: &mut [u8],
) -> ControlFlow<(), Replay> {
    let (Ok(count) | Err(count)) = program_files::read_full(
        rt,
        b"replay",
        b"moves",
        &mut rt.stdin(),
        input,
    );
    let fed = replay.feed(&input[..count], out);
    let next = fed.replay;
    if program_files::print(rt, b"replay", true, &out[..fed.length]) & (count == input.len()) {
        ControlFlow::Continue(next)
    } else {
        ControlFlow::Break(())
    }
}

fn run(rt: &HostRuntime, start: Replay) {
    let mut input = [0; PIECE_LENGTH];
    let mut out = program_files::text_room();
    program_files::turns(start, |replay| read_on(rt, replay, &mut input, &mut out));
}

fn main(rt: HostRuntime) {
    program_files::with_set(
        &rt,
        b"replay",
        b"Reads recorded moves from standard input, 16 bytes each, and prints the drill's line of each.\n",
        |set| {
            let _ = program_files::with_plan(
                &rt,
                b"replay",
                set,
                |plan| run(&rt, Replay::start(plan)),
            );
        },
    );
}
