// The drill on files: it reads moves and writes their lines. What a file holds is outside any promise; what is printed for it is
// drill_feed's.
#![tactic(auto)]

ghost use Rattle.std.specs.Prelude.{◌≡◌};
ghost use Rattle.base_refusals.specs.Numbers.{number_of};
ghost use Rattle.set_reader.specs.Read.{read_set};

use base_refusals::Refusal;
use base_text::Writer;
use drill_feed::Drill;
use drill_why::append_why;
use machine_reason::{Explained, explain};
use program_files::{print, turns, with_plan};
use set_plan::Plan;
use std::io::Read;
use std::ops::ControlFlow;

// Bytes of one read. Each gives at most 80 of text, and program_files' text room has 65,536 places.
const READ_LENGTH: usize = 800;

// A drill whose moves are over, and whether every line was printed.
#[derive(Clone, Copy)]
struct Last {
    drill: Drill,
    printed: bool,
}

// Reads once, and prints what the bytes give, at the end of the input what a line gives that has not ended.
fn read_on(
    rt: &HostRuntime,
    program: &[u8],
    file: &mut impl Read,
    drill: Drill,
    input: &mut [u8],
    out: &mut [u8],
) -> ControlFlow<Last, Drill> {
    let count = program_files::read_some(rt, program, file, input);
    let fed = if count == 0 {
        drill.finish(out)
    } else {
        drill.feed(&input[..count], out)
    };
    let drill = fed.drill;
    let printed = print(rt, program, true, &out[..fed.length]);
    if printed & (count != 0) {
        ControlFlow::Continue(drill)
    } else {
        ControlFlow::Break(Last { drill, printed })
    }
}

fn run(rt: &HostRuntime, program: &[u8], file: &mut impl Read, start: Drill) -> Last {
    let mut input = [0; READ_LENGTH];
    let mut out = program_files::text_room();
    let end = turns(start, |drill| {
        read_on(rt, program, file, drill, &mut input, &mut out)
    });
    match end {
        ControlFlow::Break(last) => last,
        ControlFlow::Continue(drill) => Last {
            drill,
            printed: true,
        },
    }
}

// Runs the moves in a file under a set; a refused set is named instead.
pub fn drill(
    rt: &HostRuntime,
    program: &[u8],
    set: &[u8],
    file: &mut impl Read,
) -> Result<(), Refusal>
    ensures { number_of result ≡ (read_set set.now).refusal }
{
    with_plan(rt, program, set, |plan| {
        run(rt, program, file, Drill::start(plan));
    })
}

// One line more, by the master that the moves left, if every line before it was printed.
fn print_why(rt: &HostRuntime, program: &[u8], plan: Plan, last: Last) {
    let mut room = program_files::text_room();
    let mut out = Writer::new(&mut room);
    let explained = Explained::from(explain(plan, last.drill.world.master));
    append_why(&mut out, explained);
    print(rt, program, last.printed, out.written());
}

// The same as `drill`, and why the master is awake.
pub fn why(
    rt: &HostRuntime,
    program: &[u8],
    set: &[u8],
    file: &mut impl Read,
) -> Result<(), Refusal>
    ensures { number_of result ≡ (read_set set.now).refusal }
{
    with_plan(rt, program, set, |plan| {
        let last = run(rt, program, file, Drill::start(plan));
        print_why(rt, program, plan, last);
    })
}
