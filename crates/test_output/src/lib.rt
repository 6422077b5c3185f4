// What test programs print: texts, numbers, and parts of a machine in words. No promise can say what was written, so each says that there
// is no other result.
#![tactic(auto)]

ghost use Rattle.std.specs.Prelude.{◌≡◌};

use base_text::Writer;
use machine_master::{Hold, Phase};
use machine_state::State;

pub fn print(rt: &HostRuntime, text: &[u8])
    ensures { result ≡ tt }
{
    let _ = rt.write_all(text);
}

pub fn print_number(rt: &HostRuntime, number: u64)
    ensures { result ≡ tt }
{
    let mut room = [0u8; 20];
    let mut digits = Writer::new(&mut room);
    digits.decimal(number);
    print(rt, digits.written());
}

pub fn print_state(rt: &HostRuntime, state: State)
    ensures { result ≡ tt }
{
    match state {
        State::Normal => print(rt, b"Normal"),
        State::Standby => print(rt, b"Standby"),
        State::Sleep => print(rt, b"Sleep"),
    }
}

fn print_phase(rt: &HostRuntime, phase: Phase) {
    match phase {
        Phase::Open => print(rt, b"Open"),
        Phase::Sending => print(rt, b"Sending"),
        Phase::Withdrawn => print(rt, b"Withdrawn"),
        Phase::Closing => print(rt, b"Closing"),
    }
}

// A master's state and phase.
pub fn print_status(rt: &HostRuntime, state: State, phase: Phase)
    ensures { result ≡ tt }
{
    print_state(rt, state);
    print(rt, b" ");
    print_phase(rt, phase);
}

// Whether a permission is held, and its age.
pub fn print_hold(rt: &HostRuntime, hold: Hold)
    ensures { result ≡ tt }
{
    if hold.held {
        print(rt, b"held ");
    } else {
        print(rt, b"- ");
    }
    print_number(rt, hold.age as u64);
}
