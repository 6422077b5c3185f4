// What the programs share: the set's file, named by their argument, what they read and print, and what they say on standard error. What a
// file holds and whether a write succeeds is outside any promise, so of reading only the count is promised.
#![tactic(auto)]

ghost use Rattle.std.specs.Prelude.{ℕ, List, ◌≡◌, false, length, replicate, IsErr, MatchResult};
ghost use Rattle.std.specs.Str.{IsUtf8};
ghost use Rattle.base_refusals.specs.Numbers.{number_of};
ghost use Rattle.base_text.specs.Text.{Counts};
ghost use Rattle.set_reader.specs.Read.{read_told, read_set};
ghost use Rattle.program_files.specs.Turns.{TurnsTo};

mod words;

use base_refusals::Refusal;
use base_text::Writer;
use program_arguments::Invocation;
use set_plan::Plan;
use std::env::{Env, FillError};
use std::fs::File;
use std::io;
use std::io::Read;
use std::ops::ControlFlow;
use words::words_of;

// EILSEQ of Linux. The library opens files whose names are UTF-8.
const NO_TEXT: i32 = 84;

// Room for the longest set, and a byte more that tells a longer file.
pub fn set_room() -> [u8; 1537]
    ensures { result ≡ replicate 1537 0 }
{
    [0; 1537]
}

// Room for a line, or for an argument as long as a path can be.
pub fn line_room() -> [u8; 4096]
    ensures { 4096 ≡ length result }
{
    [0; 4096]
}

// Room for the text of many lines.
pub fn text_room() -> [u8; 65536]
    ensures { 65536 ≡ length result }
{
    [0; 65536]
}

// How many arguments there are, the program's own name the first.
pub fn argument_count(rt: &HostRuntime) -> usize {
    (0..usize::MAX)
        .position(|i| matches!(rt.arg(i, &mut []), Err(FillError::NotPresent)))
        .unwrap_or(usize::MAX)
}

// An argument at the front of a buffer, and its length: 0 where there is none, or where it is longer than the buffer.
pub fn argument(rt: &HostRuntime, index: usize, buffer: &mut [u8]) -> usize
    ensures { Counts result buffer.new }
{
    rt.arg(index, buffer).unwrap_or(0)
}

// Writes on standard error. A write that fails there is told nowhere.
fn say(rt: &HostRuntime, text: &[u8]) {
    let _ = rt.stderr().write_all(text);
}

// A line on standard error, right after the call that failed: the program, what it is about, and the system's words.
fn fail(rt: &HostRuntime, program: &[u8], what: &[u8], error: io::Error) {
    let mut line = text_room();
    let mut text = Writer::new(&mut line);
    text.append(program);
    text.append(b": ");
    text.append(what);
    let mut words = [0u8; 256];
    let words_length = words_of(error, &mut words);
    say(rt, text.written());
    say(rt, b": ");
    say(rt, &words[..words_length]);
    say(rt, b"\n");
}

// Prints a text if all before it was printed, and tells whether all is. So a write that fails is told once, and is the last. The flag
// stays: `print`'s clause is about it.
pub fn print(rt: &HostRuntime, program: &[u8], before: bool, text: &[u8]) -> bool
    ensures { before ≡ false → result ≡ false }
{
    if before {
        match rt.write_all(text) {
            Ok(()) => return true,
            Err(error) => fail(rt, program, b"output", error),
        }
    }
    false
}

// Reads moves once, as many bytes as come.
pub fn read_some(rt: &HostRuntime, program: &[u8], file: &mut impl Read, buffer: &mut [u8]) -> usize
    ensures { Counts result buffer.new }
{
    match file.read(buffer) {
        Ok(count) => count,
        Err(error) => {
            fail(rt, program, b"moves", error);
            0
        }
    }
}

// A read that failed, and how many bytes came before it.
#[derive(Drop)]
struct Failed {
    count: usize,
    error: io::Error,
}

// Reads until a buffer is full or the input ends, and tells how many bytes stand at its front. A read gives as many as it likes, so the
// loop counts bytes and goes over no items.
fn fill(file: &mut impl Read, buffer: &mut [u8]) -> Result<usize, Failed>
    ensures { MatchResult result (λ count. Counts count buffer.new) (λ failed. Counts failed.count buffer.new) }
{
    let mut count: usize = 0;
    while count < buffer.len() {
        match file.read(&mut buffer[count..]) {
            Ok(0) => break,
            Ok(more) => count += more,
            Err(error) => return Err(Failed { count, error }),
        }
    }
    Ok(count)
}

// Reads until a buffer is full or the input ends. An error is told, and has how many bytes came before it.
pub fn read_full(
    rt: &HostRuntime,
    program: &[u8],
    what: &[u8],
    file: &mut impl Read,
    buffer: &mut [u8],
) -> Result<usize, usize>
    ensures { MatchResult result (λ count. Counts count buffer.new) (λ count. Counts count buffer.new) }
{
    match fill(file, buffer) {
        Ok(count) => Ok(count),
        Err(Failed { count, error }) => {
            fail(rt, program, what, error);
            Err(count)
        }
    }
}

// Reads standard input until a buffer is full, or the input ends or fails, of which nothing is said.
pub fn read_input(rt: &HostRuntime, buffer: &mut [u8]) -> usize
    ensures { Counts result buffer.new }
{
    match fill(&mut rt.stdin(), buffer) {
        Ok(count) => count,
        Err(failed) => failed.count,
    }
}

// Opens a file for reading. A name that is no UTF-8 can't be opened.
pub fn open(rt: &HostRuntime, name: &[u8]) -> io::Result<File>
    ensures { (IsUtf8 name.now → ⊥) → IsErr result }
{
    match str::from_utf8(name) {
        Ok(path) => File::open(rt, path),
        Err(_) => Err(io::Error::from_raw_os_error(NO_TEXT)),
    }
}

// Reads a file into a buffer as far as it has room. An error is told, and has how many bytes came before it.
pub fn read_file(
    rt: &HostRuntime,
    program: &[u8],
    name: &[u8],
    buffer: &mut [u8],
) -> Result<usize, usize>
    ensures { MatchResult result (λ count. Counts count buffer.new) (λ count. Counts count buffer.new) }
{
    match open(rt, name) {
        Ok(mut file) => read_full(rt, program, name, &mut file, buffer),
        Err(error) => {
            fail(rt, program, name, error);
            Err(0)
        }
    }
}

fn print_refusal(rt: &HostRuntime, program: &[u8], refusal: Refusal) {
    let mut line = line_room();
    let mut text = Writer::new(&mut line);
    text.append(b"set ");
    text.decimal(u64::from(refusal.number()));
    text.append(b"\n");
    print(rt, program, true, text.written());
}

// The set in a file. One that can't be read is refused as one of a wrong length is.
fn read_named(rt: &HostRuntime, program: &[u8], name: &[u8], set: &mut [u8]) -> Result<usize, usize>
    ensures { MatchResult result (λ count. Counts count set.new) (λ count. Counts count set.new) }
{
    let read = read_file(rt, program, name, set);
    if read.is_err() {
        print_refusal(rt, program, Refusal::WrongSize);
    }
    read
}

fn print_help(rt: &HostRuntime, program: &[u8], about: &[u8]) {
    let mut text = line_room();
    let length = program_arguments::help(program, about, &mut text);
    print(rt, program, true, &text[..length]);
}

fn say_usage(rt: &HostRuntime, program: &[u8]) {
    let mut line = line_room();
    let length = program_arguments::usage(program, &mut line);
    say(rt, &line[..length]);
}

// Reads the set that the arguments name. Where there is none, or no whole one, all is said, the program has nothing to do, and the error has
// how many bytes were read.
pub fn read_set(
    rt: &HostRuntime,
    program: &[u8],
    about: &[u8],
    set: &mut [u8],
) -> Result<usize, usize>
    ensures { MatchResult result (λ count. Counts count set.new) (λ count. Counts count set.new) }
{
    let mut room = line_room();
    let length = argument(rt, 1, &mut room);
    let invocation = program_arguments::invocation_of(argument_count(rt), &room[..length]);
    match invocation {
        Invocation::Default => read_named(rt, program, b"plan.set", set),
        Invocation::Named => read_named(rt, program, &room[..length], set),
        Invocation::Help => {
            print_help(rt, program, about);
            Err(0)
        }
        Invocation::Usage => {
            say_usage(rt, program);
            Err(0)
        }
    }
}

// Runs a program on the bytes of the set that its arguments name.
pub fn with_set<F: FnOnce(&[u8])>(rt: &HostRuntime, program: &[u8], about: &[u8], run: F)
    requires { F.IsAlwaysCallable run }
    ensures { result ≡ tt }
{
    let mut set = set_room();
    if let Ok(count) = read_set(rt, program, about, &mut set) {
        run(&set[..count]);
    }
}

// The plan of a set's bytes. A refused set is named on standard output.
pub fn read_plan(rt: &HostRuntime, program: &[u8], set: &[u8]) -> Result<Plan, Refusal>
    ensures { read_told result ≡ read_set set.now }
{
    let read = set_reader::read(set);
    if let Err(refusal) = read {
        print_refusal(rt, program, refusal);
    }
    read
}

// The plan of the set in a file, the all-zero record where it is refused: that of some bytes, and no promise can say of which.
pub fn plan_in(rt: &HostRuntime, program: &[u8], name: &[u8]) -> Plan
    ensures { (bytes : List ℕ) × (result ≡ (read_set bytes).plan) }
{
    let mut set = set_room();
    let (Ok(count) | Err(count)) = read_file(rt, program, name, &mut set);
    match set_reader::read(&set[..count]) {
        Ok(plan) => plan,
        Err(_) => Plan::zero(),
    }
}

// The plan of the set in a file that a digit names, as 0.set.
pub fn numbered_plan(rt: &HostRuntime, program: &[u8], number: u64) -> Plan
    ensures { (bytes : List ℕ) × (result ≡ (read_set bytes).plan) }
{
    let digit = b'0' + (number % 10) as u8;
    plan_in(rt, program, &[digit, b'.', b's', b'e', b't'])
}

// Runs what a set's plan is for; a refused set is named instead.
pub fn with_plan<F: FnOnce(Plan)>(
    rt: &HostRuntime,
    program: &[u8],
    set: &[u8],
    run: F,
) -> Result<(), Refusal>
    requires { F.IsAlwaysCallable run }
    ensures { number_of result ≡ (read_set set.now).refusal }
{
    let plan = read_plan(rt, program, set)?;
    run(plan);
    Ok(())
}

// Takes turns until one is the last. A proved loop has to end, and nothing says that an input does: so the turns are counted, up to a number
// that no run uses up.
pub fn turns<S, B, F: FnMut(S) -> ControlFlow<B, S>>(start: S, mut turn: F) -> ControlFlow<B, S>
    requires { F.IsAlwaysCallable turn }
    ensures last { (last : B) → result ≡ ControlFlow.Break last → (before : F) × (state : S) × F.post before state (ControlFlow.Break last) }
    ensures turns { TurnsTo (λ before state given after. F.step before state given after) 18446744073709551615 turn start result }
{
    let mut state = start;
    for _ in 0..u64::MAX {
        match turn(state) {
            ControlFlow::Continue(next) => state = next,
            ControlFlow::Break(last) => return ControlFlow::Break(last),
        }
    }
    ControlFlow::Continue(state)
}
