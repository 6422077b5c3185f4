// A line of the drill's input: the move that its words name.
#![tactic(auto)]

ghost use Rattle.std.specs.Prelude.{◌≡◌, ◌∷◌, ◌≤◌, [], IfSome, MatchOption};
ghost use Rattle.drill_line.specs.Words.{words, first_space, digit_of, first_digit_of, number_of};
ghost use Rattle.drill_line.specs.Parse.{number_below, who_of, fate_of, reqid_of, lossless, one_word, wake_of, sent_of, two_words, permission_of, permit_of, request_of, three_words, send_of, four_words, parse_line, on_drill_bus};

use bus::{Act, Bus, Damage, Fate, Move};
use set_plan::{Plan, Row};

// Whom a move names: X.
#[derive(Clone, Copy)]
pub enum Who {
    Master,
    Node(u8),
}

// A move in its parts: the act, whether its message reaches all nodes or none, and what becomes of its answer.
#[derive(Clone, Copy)]
pub struct LineMove {
    pub act: Act,
    pub reached: bool,
    pub fate: Fate,
}

// A whole answer has its row's own length, which no row's is above.
const OWN_LENGTH: u16 = u16::MAX;

fn first_space(text: &[u8]) -> Option<usize>
    ensures { result ≡ first_space text.now }
{
    text.iter().position(|byte| *byte == b' ')
}

// The word before the first space, and what is behind that space.
fn split_once(text: &[u8]) -> Option<(&[u8], &[u8])>
    ensures { MatchOption result (words text.now ≡ text.now ∷ []) (λ parts. words text.now ≡ parts.0.now ∷ words parts.1.now) }
{
    let space = first_space(text)?;
    Some((&text[..space], &text[space + 1..]))
}

fn digit(byte: u8) -> Option<u16>
    ensures value { result ≡ digit_of byte }
    ensures small { IfSome result (λ digit. digit ≤ 9) }
{
    match byte {
        b'0'..=b'9' => Some((byte - b'0') as u16),
        _ => None,
    }
}

// The first of several digits.
fn first_digit(byte: u8) -> Option<u16>
    ensures value { result ≡ first_digit_of byte }
    ensures small { IfSome result (λ digit. digit ≤ 9) }
{
    if byte == b'0' { None } else { digit(byte) }
}

#[tactic(auto, unfolding(crate::specs::Words::number_of))]
fn number(word: &[u8]) -> Option<u16>
    ensures { result ≡ number_of word.now }
{
    match *word {
        [ones] => digit(ones),
        [tens, ones] => Some(10 * first_digit(tens)? + digit(ones)?),
        [hundreds, tens, ones] => {
            Some(100 * first_digit(hundreds)? + 10 * digit(tens)? + digit(ones)?)
        }
        _ => None,
    }
}

fn number_below(word: &[u8], limit: u8) -> Option<u8>
    ensures { result ≡ number_below word.now limit }
{
    let number = number(word)?;
    if number < (limit as u16) {
        Some(number as u8)
    } else {
        None
    }
}

#[tactic(auto, unfolding(crate::specs::Parse::who_of))]
fn whom(word: &[u8], nodecount: u8) -> Option<Who>
    ensures { result ≡ who_of word.now nodecount }
{
    match word {
        b"m" => Some(Who::Master),
        _ => Some(Who::Node(number_below(word, nodecount)?)),
    }
}

#[tactic(auto, unfolding(crate::specs::Parse::fate_of))]
fn fate(word: &[u8]) -> Option<Fate>
    ensures { result ≡ fate_of word.now }
{
    match word {
        b"ok" => Some(Fate::Whole(OWN_LENGTH)),
        b"bad" => Some(Fate::Damaged(Damage {
            result: 1,
            length: 0,
            count: 0,
            permission: false,
            wake: false,
        })),
        b"lost" => Some(Fate::Lost),
        _ => None,
    }
}

#[tactic(auto, unfolding(crate::specs::Parse::reqid_of))]
fn reqid(word: &[u8]) -> Option<u8>
    ensures { result ≡ reqid_of word.now }
{
    number_below(word, Row::REQIDS as u8)
}

// A move of which the bus loses nothing.
fn lossless(act: Act) -> LineMove
    ensures { result ≡ lossless act }
{
    LineMove {
        act,
        reached: true,
        fate: Fate::Whole(OWN_LENGTH),
    }
}

fn one_word(first: &[u8]) -> Option<LineMove>
    ensures { result ≡ one_word first.now }
{
    match first {
        b"tick" => Some(lossless(Act::Tick)),
        b"sleep" => Some(lossless(Act::SleepAsk)),
        _ => None,
    }
}

fn wake(who: Who) -> LineMove
    ensures { result ≡ wake_of who }
{
    match who {
        Who::Node(node) => lossless(Act::NodeWakeAsk(node)),
        Who::Master => lossless(Act::MasterWakeAsk),
    }
}

fn sent(res: &[u8]) -> Option<LineMove>
    ensures { result ≡ sent_of res.now }
{
    match res {
        b"ok" => Some(lossless(Act::SendResult(true))),
        b"fail" => Some(LineMove {
            act: Act::SendResult(false),
            reached: false,
            fate: Fate::Whole(OWN_LENGTH),
        }),
        _ => None,
    }
}

fn two_words(first: &[u8], second: &[u8], nodecount: u8) -> Option<LineMove>
    ensures { result ≡ two_words first.now second.now nodecount }
{
    match first {
        b"wake" => Some(wake(whom(second, nodecount)?)),
        b"sent" => sent(second),
        _ => None,
    }
}

#[tactic(auto, unfolding(crate::specs::Parse::permission_of))]
fn permission(word: &[u8]) -> Option<bool>
    ensures { result ≡ permission_of word.now }
{
    match word {
        b"0" => Some(false),
        b"1" => Some(true),
        _ => None,
    }
}

fn permit(x: &[u8], permitted: &[u8], nodecount: u8) -> Option<LineMove>
    ensures { result ≡ permit_of x.now permitted.now nodecount }
{
    let who = whom(x, nodecount)?;
    let permitted = permission(permitted)?;
    Some(match who {
        Who::Node(node) => lossless(Act::NodePermission { node, permitted }),
        Who::Master => lossless(Act::MasterPermission(permitted)),
    })
}

fn request(reqid: u8, fate: Fate) -> LineMove
    ensures { result ≡ request_of reqid fate }
{
    LineMove {
        act: Act::Request(reqid),
        reached: true,
        fate,
    }
}

fn three_words(first: &[u8], second: &[u8], third: &[u8], nodecount: u8) -> Option<LineMove>
    ensures { result ≡ three_words first.now second.now third.now nodecount }
{
    match first {
        b"permit" => permit(second, third, nodecount),
        b"req" => Some(request(reqid(second)?, fate(third)?)),
        _ => None,
    }
}

// The master sends by its schedule alone.
fn send(who: Who, reqid: u8, fate: Fate) -> Option<LineMove>
    ensures { result ≡ send_of who reqid fate }
{
    match who {
        Who::Node(node) => Some(LineMove {
            act: Act::SendAsk { node, reqid },
            reached: true,
            fate,
        }),
        Who::Master => None,
    }
}

fn four_words(
    first: &[u8],
    second: &[u8],
    third: &[u8],
    fourth: &[u8],
    nodecount: u8,
) -> Option<LineMove>
    ensures { result ≡ four_words first.now second.now third.now fourth.now nodecount }
{
    match first {
        b"send" => send(whom(second, nodecount)?, reqid(third)?, fate(fourth)?),
        _ => None,
    }
}

// What a line, given without its LF, says in a plan of so many nodes.
pub fn parse(line: &[u8], nodecount: u8) -> Option<LineMove>
    ensures { result ≡ parse_line line.now nodecount }
{
    let Some((first, more)) = split_once(line) else {
        return one_word(line);
    };
    let Some((second, more)) = split_once(more) else {
        return two_words(first, more, nodecount);
    };
    let Some((third, fourth)) = split_once(more) else {
        return three_words(first, second, more, nodecount);
    };
    if split_once(fourth).is_some() {
        return None;
    }
    four_words(first, second, third, fourth, nodecount)
}

// A line's move on the bus. It takes the parts one by one: the promise of `on_drill_bus`, which docs/TRACE.md names, is about them.
pub fn on_drill_bus(act: Act, reached: bool, fate: Fate) -> Move
    ensures { result ≡ on_drill_bus act reached fate }
{
    Move {
        act,
        bus: Bus {
            reached: [reached; Plan::NODES],
            hearing: [true; Plan::NODES],
            master: true,
            fate,
        },
    }
}
