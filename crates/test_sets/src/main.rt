// A test of reader and writer. Of each file that an argument names it prints the name, the refusal or 0, and the set in
// words; then what the writer makes of the record, in a buffer with room and in one of 1,023 bytes.
#![tactic(auto)]

use base_refusals::number_of;
use set_plan::Plan;
use test_output::{print, print_number};

fn print_item(rt: &HostRuntime, number: usize) {
    print(rt, b" ");
    print_number(rt, number as u64);
}

// Whether the front of a buffer holds a set and the rest is as it was.
fn holds(buffer: &[u8], set: &[u8]) -> bool {
    let (front, rest) = buffer.split_at(set.len().min(buffer.len()));
    set.starts_with(front) && rest.iter().all(|byte| *byte == 170)
}

// Writes a set's record into a buffer that held the byte 170 throughout, and prints what became of it.
fn write_back(rt: &HostRuntime, plan: Plan, set: &[u8], buffer: &mut [u8]) {
    let written = set_writer::write(plan, buffer);
    print(rt, b"write");
    print_item(rt, usize::from(number_of(written)));
    print_item(rt, written.unwrap_or(0));
    if holds(buffer, b"") {
        print(rt, b" untouched\n");
        return;
    }
    if holds(buffer, set) {
        print(rt, b" same\n");
        return;
    }
    print(rt, b" other\n");
}

fn show_file(rt: &HostRuntime, argument: usize) {
    let mut name = program_files::line_room();
    let name_length = program_files::argument(rt, argument, &mut name);
    print(rt, &name[..name_length]);
    let mut set = program_files::set_room();
    let (Ok(count) | Err(count)) = program_files::read_file(
        rt,
        b"test_sets",
        &name[..name_length],
        &mut set,
    );
    let read = set_reader::read(&set[..count]);
    let plan = read.unwrap_or(Plan::zero());
    print_item(rt, usize::from(number_of(read)));
    print(rt, b"\n");
    let mut out = program_files::text_room();
    let length = set_text::show(&set[..count], &mut out);
    print(rt, &out[..length]);
    let mut roomy = [170u8; 1600];
    write_back(rt, plan, &set[..count], &mut roomy);
    let mut short = [170u8; 1023];
    write_back(rt, plan, &set[..count], &mut short);
}

fn main(rt: HostRuntime) {
    let count = program_files::argument_count(&rt);
    for i in 1..count {
        show_file(&rt, i);
    }
}
