// The lines that the drill prints.
#![tactic(auto)]

ghost use Rattle.std.specs.Prelude.{◌≡◌, length};
ghost use Rattle.base_text.specs.Text.{wrote};
ghost use Rattle.drill_text.specs.Lines.{state_letter, phase_digit, clock_digit, node_text, nodes_text, refusal_text, move_line, bad_line};

use base_text::Writer;
use bus::World;
use machine_master::Phase;
use machine_node::Node;
use machine_state::State;
use set_plan::Plan;

fn state_letter(state: State) -> u8
    ensures { result ≡ state_letter state }
{
    match state {
        State::Normal => b'N',
        State::Standby => b'S',
        State::Sleep => b'Z',
    }
}

fn phase_digit(phase: Phase) -> u8
    ensures { result ≡ phase_digit phase }
{
    match phase {
        Phase::Open => b'0',
        Phase::Sending => b'1',
        Phase::Withdrawn => b'2',
        Phase::Closing => b'3',
    }
}

fn clock_digit(state: State) -> u8
    ensures { result ≡ clock_digit state }
{
    match state {
        State::Normal => b'1',
        State::Standby => b'0',
        State::Sleep => b'0',
    }
}

#[tactic(auto, unfolding(crate::specs::Lines::node_text))]
fn append_node(out: &mut Writer<'_>, state: State, error: bool)
    ensures { out.new ≡ wrote (node_text state error) out.old }
{
    let letter = state_letter(state);
    if error {
        out.append(&[letter, b'!']);
    } else {
        out.append(&[letter]);
    }
}

#[tactic(auto, using(base_text::proofs::Appends::writing, crate::proofs::Lines::nodes))]
fn append_nodes(out: &mut Writer<'_>, nodes: &[Node])
    ensures { out.new ≡ wrote (nodes_text nodes.now (length nodes.now)) out.old }
{
    for node in nodes {
        append_node(out, node.state, node.error);
    }
}

#[tactic(auto, using(base_text::proofs::Appends::writing), unfolding(crate::specs::Lines::refusal_text))]
fn append_refusal(out: &mut Writer<'_>, refusal: u8)
    ensures { out.new ≡ wrote (refusal_text refusal) out.old }
{
    out.append(b" ");
    out.decimal(refusal as u64);
    out.append(b"\n");
}

// The line of a move: what it left, and its refusal or 0.
#[tactic(auto, using(base_text::proofs::Appends::writing, crate::proofs::Lines::nodes_front), unfolding(crate::specs::Lines::move_line))]
pub fn append_move(out: &mut Writer<'_>, number: u64, world: &World, nodecount: u8, refusal: u8)
    ensures { out.new ≡ wrote (move_line number world.now nodecount refusal) out.old }
{
    let state = world.master.state;
    let phase = phase_digit(world.master.phase);
    out.decimal(number);
    out.append(&[
        b' ',
        state_letter(state),
        phase,
        b' ',
        clock_digit(state),
        b' ',
    ]);
    append_nodes(out, &world.nodes[..(nodecount as usize).min(Plan::NODES)]);
    append_refusal(out, refusal);
}

// The line of a line that is no move.
#[tactic(auto, using(base_text::proofs::Appends::writing), unfolding(crate::specs::Lines::bad_line))]
pub fn append_bad(out: &mut Writer<'_>, number: u64)
    ensures { out.new ≡ wrote (bad_line number) out.old }
{
    out.decimal(number);
    out.append(b" ?\n");
}
