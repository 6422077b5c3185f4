// Why a master is awake: the first reason for which a sleep ask is not accepted (W-205).
#![tactic(auto)]

ghost use Rattle.std.specs.Prelude.{◌≡◌, get_or};
ghost use Rattle.machine_master.specs.Changes.{cause_new};
ghost use Rattle.machine_reason.specs.Numbers.{cause_number, reason_numbers};
ghost use Rattle.machine_reason.specs.Reasons.{cause_of, node_reason, reason_by, refused, explained, explain_with, explain};

use base_refusals::Refusal;
use machine_master::{Master, Phase, first_not_held};
use machine_state::is_normal;
use set_plan::{Plan, Times, judge};

// Why a node's permission is not held.
#[derive(Clone, Copy, PartialEq, Eq)]
pub enum Cause {
    New,
    Refused,
    Aged,
    Damaged,
    Woken,
}

// The first that stands in the way of a sleep ask.
#[derive(Clone, Copy)]
pub enum Reason {
    Nothing,
    UnderWay,
    Owed,
    Own,
    Node { node: u8, cause: Cause },
    // the panel never sleeps (W-206)
    Profile,
}

// A reason, or a refusal's number and no reason, as the definitions have it. Any number can stand in it.
#[derive(Clone, Copy)]
pub struct Explained {
    pub refusal: u8,
    pub reason: Reason,
}

pub fn refused(refusal: u8) -> Explained
    ensures { result ≡ refused refusal }
{
    Explained {
        refusal,
        reason: Reason::Nothing,
    }
}

impl From<Result<Reason, Refusal>> for Explained {
    ghost from_gives = { λ why told. told ≡ explained why };

    fn from(why: Result<Reason, Refusal>) -> Explained {
        match why {
            Ok(reason) => Explained { refusal: 0, reason },
            Err(refusal) => refused(refusal.number()),
        }
    }
}

fn stored_cause(causes: [u8; Plan::NODES], node: u8) -> u8
    ensures { result ≡ get_or causes node cause_new }
{
    if (node as usize) < Plan::NODES {
        causes[node as usize]
    } else {
        Master::NEW
    }
}

// The cause of a number that a master stores; New for one above WAKE.
impl From<u8> for Cause {
    ghost from_gives = { λ stored cause. cause ≡ cause_of stored };

    fn from(stored: u8) -> Cause {
        match stored {
            Master::REFUSED => Cause::Refused,
            Master::AGED => Cause::Aged,
            Master::DAMAGED => Cause::Damaged,
            Master::WAKE => Cause::Woken,
            _ => Cause::New,
        }
    }
}

// The number by which a master stores a cause.
impl From<Cause> for u8 {
    ghost from_gives = { λ cause stored. stored ≡ cause_number cause };

    fn from(cause: Cause) -> u8 {
        match cause {
            Cause::New => Master::NEW,
            Cause::Refused => Master::REFUSED,
            Cause::Aged => Master::AGED,
            Cause::Damaged => Master::DAMAGED,
            Cause::Woken => Master::WAKE,
        }
    }
}

fn node_reason(nodecount: u8, master: Master) -> Reason
    ensures { result ≡ node_reason nodecount master }
{
    let node = first_not_held(master.holds, nodecount);
    if node < nodecount {
        let cause = Cause::from(stored_cause(master.causes, node));
        Reason::Node { node, cause }
    } else {
        Reason::Nothing
    }
}

fn reason_by(sleeps: bool, nodecount: u8, master: Master) -> Reason
    ensures { result ≡ reason_by sleeps nodecount master.phase master }
{
    if sleeps {
        match master.phase {
            Phase::Open if master.permission => node_reason(nodecount, master),
            Phase::Open => Reason::Own,
            Phase::Sending => Reason::UnderWay,
            Phase::Withdrawn => Reason::Owed,
            Phase::Closing => Reason::UnderWay,
        }
    } else {
        Reason::Profile
    }
}

// Where the plan is judged: by whether its machines sleep, its number of nodes and its times.
pub fn explain_with(
    sleeps: bool,
    nodecount: u8,
    times: Times,
    master: Master,
) -> Result<Reason, Refusal>
    ensures { explained result ≡ explain_with sleeps nodecount times master }
{
    Refusal::NoState.unless(master.in_range(sleeps, nodecount, times))?;
    Refusal::NeedsNormal.unless(is_normal(master.state))?;
    Ok(reason_by(sleeps, nodecount, master))
}

// 3 to 8 for a refused plan, 11 for a master out of range, 16 outside Normal.
pub fn explain(plan: Plan, master: Master) -> Result<Reason, Refusal>
    ensures { explained result ≡ explain plan master }
{
    judge(plan)?;
    explain_with(plan.sleeps(), plan.nodecount, plan.times, master)
}

// Reason, node and cause as numbers.
pub fn reason_numbers(reason: Reason) -> [u8; 3]
    ensures { result ≡ reason_numbers reason }
{
    match reason {
        Reason::Nothing => [0, 0, 0],
        Reason::UnderWay => [1, 0, 0],
        Reason::Owed => [2, 0, 0],
        Reason::Own => [3, 0, 0],
        Reason::Node { node, cause } => [4, node, u8::from(cause)],
        Reason::Profile => [5, 0, 0],
    }
}
