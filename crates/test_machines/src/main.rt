// A test of both machines. Each line of its input is a case: numbers that give a plan, a state and an event, and what the case
// shows. It prints the state, the command and the refusal that the step gives. tests/machines/make.py writes the cases.
#![tactic(auto)]

ghost use Rattle.std.specs.Prelude.{◌≤◌, ◌-◌, length};

use set_plan::Plan;
use test_output::print;

mod masters;
mod nodes;
mod output;

// What stands before the first byte that is a separator, and what stands behind that byte.
fn split_at_first<F: Fn(u8) -> bool>(text: &[u8], separator: F) -> (&[u8], &[u8])
    requires { F.IsAlwaysCallable separator }
    ensures { length result.1.now ≤ length text.now - 1 }
{
    match text.iter().position(|byte| separator(*byte)) {
        Some(place) => (&text[..place], &text[place + 1..]),
        None => (text, b""),
    }
}

fn number(digits: &[u8]) -> u64 {
    digits.iter().fold(0, |value, digit| {
        (value % 1000000000 * 10 + (digit % 16) as u64) % 4294967296
    })
}

// The numbers of a case, and what stands behind them.
fn case_of(text: &[u8]) -> ([u64; 22], &[u8])
    ensures { length result.1.now ≤ length text.now - 1 }
{
    let mut values = [0u64; 22];
    let mut rest = text;
    for value in &mut values {
        let (digits, more) = split_at_first(rest, |byte| byte < b'0');
        *value = number(digits);
        rest = more;
    }
    (values, rest)
}

// A number's remainder as one of a narrower type: an `as` alone is no plainer, since it is proved to lose nothing.
fn narrow(x: u64) -> u8 {
    (x % 256) as u8
}

fn middle(x: u64) -> u16 {
    (x % 65536) as u16
}

fn wide(x: u64) -> u32 {
    (x % 4294967296) as u32
}

fn set_of(rt: &HostRuntime, number: u64) -> Plan {
    program_files::numbered_plan(rt, b"test_machines", number)
}

fn with_kind_4(mut plan: Plan) -> Plan {
    let mut rows = plan.rows;
    rows[1].kind = 4;
    plan.rows = rows;
    plan
}

// No set can hold plans 2, 6 and 8: each is plan 0 with one field wrong.
fn plan_of(rt: &HostRuntime, number: u64) -> Plan {
    match number {
        2 => Plan {
            revision: 0,
            ..set_of(rt, 0)
        },
        6 => Plan {
            profile: 2,
            ..set_of(rt, 0)
        },
        8 => with_kind_4(set_of(rt, 0)),
        _ => set_of(rt, number),
    }
}

// Runs the case at the front of a text, and gives what stands behind its line.
fn run_case<'a>(rt: &HostRuntime, text: &'a [u8]) -> &'a [u8]
    ensures { length result.now ≤ length text.now - 1 }
{
    let (values, rest) = case_of(text);
    let (shows, more) = split_at_first(rest, |byte| byte == b'\n');
    if values[0] == 0 {
        masters::run(rt, values);
    } else {
        nodes::run(rt, values);
    }
    print(rt, shows);
    print(rt, b"\n");
    more
}

fn run(rt: &HostRuntime, text: &[u8]) {
    let mut rest = text;
    while !rest.is_empty() {
        rest = run_case(rt, rest);
    }
}

fn main(rt: HostRuntime) {
    let mut input = program_files::text_room();
    let count = program_files::read_input(&rt, &mut input);
    run(&rt, &input[..count]);
}
