// A test of the node configuration. Each argument is a case in hex: a request, then the length of the response buffer. A node from the
// moulding line takes them one after the other; its address is blank at first, and each buffer holds AA throughout. Of a case it prints
// the request, what came of it, the address then and the buffer. Last it counts the refusals of requests of every length to 4,096.
#![tactic(auto)]

use base_refusals::{Refusal, number_of};
use base_text::{Writer, below};
use machine_node_configuration::{Configured, Identity, configure};
use test_output::{print, print_number};

const NODE: Identity = Identity {
    supplier: 0x0123,
    function: 0x4567,
    variant: 0x89,
    serial: 0x01020304,
};

// As long can a request or a response buffer be.
const ROOM: usize = 16;

fn print_byte(rt: &HostRuntime, byte: u8) {
    let mut room = [0u8; 3];
    let mut text = Writer::new(&mut room);
    text.append(b" ");
    text.hex(byte);
    print(rt, text.written());
}

fn print_bytes(rt: &HostRuntime, label: &[u8], bytes: &[u8]) {
    print(rt, label);
    for byte in bytes {
        print_byte(rt, *byte);
    }
}

// The low four bits are a hex digit's value.
fn digit_of(letter: u8) -> u8 {
    if letter < 65 { letter } else { letter % 16 + 9 }
}

fn byte_of(high: u8, low: u8) -> u8 {
    digit_of(high) % 16 * 16 + digit_of(low) % 16
}

// The bytes of a word in hex, as many as have room.
fn decode(word: &[u8], bytes: &mut [u8]) -> usize {
    for (byte, digits) in bytes.iter_mut().zip(word.chunks_exact(2)) {
        *byte = byte_of(digits[0], digits[1]);
    }
    bytes.len().min(word.len() / 2)
}

fn print_outcome(rt: &HostRuntime, outcome: Result<Configured, Refusal>, response: &[u8]) {
    match outcome {
        Err(refusal) => {
            print(rt, b": refused ");
            print_number(rt, u64::from(refusal.number()));
        }
        Ok(Configured { length: 0, .. }) => print(rt, b": silence"),
        Ok(Configured { length, .. }) => {
            let length = below(response, length as usize);
            print_bytes(rt, b": answer", &response[..length]);
        }
    }
}

// Gives the address after the case.
fn run(rt: &HostRuntime, address: u8, request: &[u8], response: &mut [u8]) -> u8 {
    print_bytes(rt, b"request", request);
    let outcome = configure(NODE, address, request, response);
    let next = match outcome {
        Ok(done) => done.address,
        Err(_) => address,
    };
    print_outcome(rt, outcome, response);
    print_bytes(rt, b", address", &[next]);
    print_bytes(rt, b", buffer", response);
    print(rt, b"\n");
    next
}

fn run_case(rt: &HostRuntime, address: u8, argument: usize) -> u8 {
    let mut word = program_files::line_room();
    let letters = program_files::argument(rt, argument, &mut word);
    let mut bytes = [0u8; ROOM];
    let count = decode(&word[..letters], &mut bytes);
    if count == 0 {
        return address;
    }
    let length = below(&bytes, count - 1);
    let mut buffer = [0xaau8; ROOM];
    let room = below(&buffer, base_bytes::byte_at(&bytes, length) as usize);
    run(rt, address, &bytes[..length], &mut buffer[..room])
}

// How many of a text's 4,097 beginnings, as requests, have a refusal.
fn refused_by(refusal: u8, text: &[u8; 4096]) -> usize {
    let mut buffer = [0u8; 8];
    (0..4097)
        .filter(|length| number_of(configure(NODE, 0, &text[..*length], &mut buffer)) == refusal)
        .count()
}

fn print_refused(rt: &HostRuntime, refusal: u8, text: &[u8; 4096], label: &[u8]) {
    print_number(rt, refused_by(refusal, text) as u64);
    print(rt, label);
}

fn run_lengths(rt: &HostRuntime, start: &[u8]) {
    let mut text = [0u8; 4096];
    base_bytes::put(&mut text, 0, start);
    print_bytes(rt, b"lengths 0 to 4096 of", start);
    print(rt, b": ");
    print_refused(rt, 0, &text, b" taken, ");
    print_refused(rt, 23, &text, b" refused 23, ");
    print_refused(rt, 24, &text, b" refused 24\n");
}

fn main(rt: HostRuntime) {
    let count = program_files::argument_count(&rt);
    let mut address: u8 = 0;
    for i in 1..count {
        address = run_case(&rt, address, i);
    }
    run_lengths(&rt, &[0x2e, 0xff, 0x07, 0x01, 0x23, 0x45, 0x67, 0x41]);
    run_lengths(&rt, &[0x22, 0xff, 0x05]);
    run_lengths(&rt, &[0x10]);
}
