// What ticks and answers, the events that fill a frame slot, do to a master, in the bytes of its state.
#![tactic(auto)]

ghost use Rattle.std.specs.Prelude.{◌≡◌, ◌+◌, ◌*◌, [], ◌∷◌, nat_lt};
ghost use Rattle.std.proofs.lemmas.List.Edits.{sets};
ghost use Rattle.base_lists.specs.Bounded.{if_else};
ghost use Rattle.set_record.specs.Record.{record_of};
ghost use Rattle.machine_master.specs.declared.Event.{Event};
ghost use Rattle.packed_master.specs.Offsets.{holds_at};
ghost use Rattle.packed_master.specs.States.{hold_bytes};
ghost use Rattle.packed_master_steps.specs.InPlace.{is_quiet, node_aged, aged_nodes, tick_number_up, aged_bytes, is_kept, accepting, kept_row, lost_before, count_kept, answer_kept, outcome, leaves};

use base_bytes::{byte_at, long_number, number_at, put};
use machine_master::{Answer, Event, Hold, Master, lost_after, older};
use packed_master::{CAUSES_AT, COUNTS_AT, HOLDS_AT, PHASE_AT, STATE_AT, TICKS_AT, hold_of};
use set_plan::{Plan, Row};

fn put_byte(state: &mut [u8], offset: usize, value: u8)
    ensures { state.new ≡ sets state.old offset (value ∷ []) }
{
    if offset < state.len() {
        state[offset] = value;
    }
}

// By the byte: a place that is not known to the compiler would cost `put` a loop.
fn put_hold(state: &mut [u8], node: u8, hold: Hold)
    ensures { state.new ≡ sets state.old (holds_at + 3 * node) (hold_bytes hold) }
{
    let start = HOLDS_AT + ((3 * (node as u32)) as usize);
    let [high, low] = hold.age.to_be_bytes();
    put_byte(state, start, u8::from(hold.held));
    put_byte(state, start + 1, high);
    put_byte(state, start + 2, low);
}

fn age_node(state: &mut [u8], k: u8, nodes: u8, window: u16, normal: bool)
    ensures { state.new ≡ if_else (nat_lt k nodes) (node_aged normal window k state.old) state.old }
{
    if k < nodes {
        let hold = hold_of(state, k);
        put_hold(state, k, older(window, hold));
        if normal & hold.held & (window <= hold.age) {
            put_byte(state, CAUSES_AT + (k as usize), Master::AGED);
        }
    }
}

// All places are passed, so that their number is known to the compiler.
fn age_nodes(state: &mut [u8], nodes: u8, window: u16)
    ensures { state.new ≡ aged_nodes nodes window state.old }
{
    let normal = byte_at(state, STATE_AT) == 0;
    for k in 0..Plan::NODES as u8 {
        age_node(state, k, nodes, window, normal);
    }
}

#[tactic(auto, unfolding(crate::specs::InPlace::tick_number_up))]
fn next_tick(state: &mut [u8])
    ensures { state.new ≡ tick_number_up state.old }
{
    let ticks = long_number(number_at(state, TICKS_AT), number_at(state, TICKS_AT + 2));
    put(state, TICKS_AT, &ticks.wrapping_add(1).to_be_bytes()[..]);
}

// Whether a tick leaves state and phase.
fn is_quiet(state: &[u8]) -> bool
    ensures { result ≡ is_quiet state.now }
{
    let sleeps = byte_at(state, STATE_AT) == 2;
    let stays = (byte_at(state, STATE_AT) == 0) & (byte_at(state, PHASE_AT) < 3);
    sleeps | stays
}

// A tick that leaves state and phase.
fn age(state: &mut [u8], nodes: u8, window: u16)
    ensures { state.new ≡ aged_bytes nodes window state.old }
{
    age_nodes(state, nodes, window);
    next_tick(state);
}

// Whether an answer is undamaged, permits sleep and wakes nobody, in Normal.
fn is_kept(state: &[u8], answer: Answer) -> bool
    ensures { result ≡ is_kept state.now answer }
{
    let normal = byte_at(state, STATE_AT) == 0;
    let right = ((answer.reqid as usize) < Row::REQIDS) & (answer.count < Row::COUNTS);
    let permits = answer.permission & !answer.wake;
    normal & right & permits & (answer.result == 0)
}

// A row, where a node publishes it and it accepts a length.
fn accepting(row: Option<Row>, length: u16) -> Option<Row>
    ensures { result ≡ accepting row length }
{
    row.filter(|found| found.publisher != Plan::MASTER && found.accepts(length))
}

// The row of an answer that is kept in the state's bytes.
fn kept_row(plan: &[u8], state: &[u8], answer: Answer) -> Option<Row>
    ensures { result ≡ kept_row (record_of plan.now) state.now answer }
{
    if is_kept(state, answer) {
        accepting(set_record::rising_row_of(plan, answer.reqid), answer.length)
    } else {
        None
    }
}

// Keeps the count of an answer, where its row has one.
fn keep_count(state: &mut [u8], row: Row, count: u8) -> u8
    ensures { (result ≡ lost_before row count state.old) × (state.new ≡ count_kept row count state.old) }
{
    if row.is_counted() {
        let place = COUNTS_AT + (row.reqid as usize);
        let lost = lost_after(byte_at(state, place), count);
        put_byte(state, place, count);
        lost
    } else {
        0
    }
}

// A whole answer that permits sleep and wakes nobody; gives the answers lost before it.
fn keep_answer(state: &mut [u8], row: Row, count: u8) -> u8
    ensures { (result ≡ lost_before row count state.old) × (state.new ≡ answer_kept row count state.old) }
{
    let lost = keep_count(state, row, count);
    put_hold(state, row.publisher, Hold { held: true, age: 0 });
    put_byte(state, CAUSES_AT + (row.publisher as usize), Master::NEW);
    lost
}

fn tick_in_place(plan: &[u8], state: &mut [u8]) -> Option<u8>
    ensures { (result ≡ outcome (record_of plan.now) state.old Event.Tick)
        × (state.new ≡ leaves (record_of plan.now) state.old Event.Tick) }
{
    if is_quiet(state) {
        age(
            state,
            set_record::node_count(plan),
            set_record::times_of(plan).window,
        );
        Some(0)
    } else {
        None
    }
}

fn answer_in_place(plan: &[u8], state: &mut [u8], answer: Answer) -> Option<u8>
    ensures { (result ≡ outcome (record_of plan.now) state.old (Event.Answer answer))
        × (state.new ≡ leaves (record_of plan.now) state.old (Event.Answer answer)) }
{
    let row = kept_row(plan, state, answer)?;
    Some(keep_answer(state, row, answer.count))
}

// Does a tick or a whole answer in the bytes of a state, where that is simple. Where plan and state are judged it is the machine's step, whose
// reply commands nothing and is no refusal: the answers lost before it come back. None leaves the event to the machine.
pub fn step_in_place(plan: &[u8], state: &mut [u8], event: Event) -> Option<u8>
    ensures { (result ≡ outcome (record_of plan.now) state.old event)
        × (state.new ≡ leaves (record_of plan.now) state.old event) }
{
    match event {
        Event::Tick => tick_in_place(plan, state),
        Event::Answer(answer) => answer_in_place(plan, state, answer),
        _ => None,
    }
}
