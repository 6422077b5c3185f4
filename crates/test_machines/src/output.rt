// What the test prints, each with a space behind it.
use set_plan::Row;
use test_output::print;

pub(crate) fn print_item(rt: &HostRuntime, number: u64) {
    test_output::print_number(rt, number);
    print(rt, b" ");
}

pub(crate) fn print_flag(rt: &HostRuntime, flag: bool, word: &[u8]) {
    if flag {
        print(rt, word);
        print(rt, b" ");
    }
}

// The counts of the plan's first two rows.
pub(crate) fn print_counts(rt: &HostRuntime, counts: [u8; Row::REQIDS]) {
    let first = counts[16];
    let second = counts[17];
    print_item(rt, first as u64);
    print_item(rt, second as u64);
}
