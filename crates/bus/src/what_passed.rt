// What passed in a move, as facts.
ghost use Rattle.std.specs.Prelude.{◌≡◌};
ghost use Rattle.bus.specs.Passed.{nothing, ticked, asked, master_permits, node_permits, answered, sending, slept};

use crate::{Passed, PermissionChange};
use machine_master::Answer;
use set_plan::{Plan, Row};

impl Passed {
    pub(crate) fn nothing() -> Passed
        ensures { result ≡ nothing }
    {
        Passed {
            tick: false,
            clock: false,
            stop: false,
            asked: false,
            woken: false,
            permission: None,
            arrival: None,
            sending: false,
            result: None,
            slept: [false; Plan::NODES],
        }
    }

    pub(crate) fn ticked(clock: bool, stop: bool, woken: bool) -> Passed
        ensures { result ≡ ticked clock stop woken }
    {
        Passed {
            tick: true,
            clock,
            stop,
            woken,
            ..Passed::nothing()
        }
    }

    pub(crate) fn asked(woken: bool) -> Passed
        ensures { result ≡ asked woken }
    {
        Passed {
            asked: true,
            woken,
            ..Passed::nothing()
        }
    }

    pub(crate) fn master_permits(permitted: bool) -> Passed
        ensures { result ≡ master_permits permitted }
    {
        Passed {
            permission: Some(PermissionChange::Master(permitted)),
            ..Passed::nothing()
        }
    }

    pub(crate) fn node_permits(node: u8, permitted: bool) -> Passed
        ensures { result ≡ node_permits node permitted }
    {
        Passed {
            permission: Some(PermissionChange::Node { node, permitted }),
            ..Passed::nothing()
        }
    }

    pub(crate) fn answered(row: Row, answer: Answer) -> Passed
        ensures { result ≡ answered row answer }
    {
        Passed {
            arrival: Some((row, answer)),
            ..Passed::nothing()
        }
    }

    pub(crate) fn sending() -> Passed
        ensures { result ≡ sending }
    {
        Passed {
            sending: true,
            ..Passed::nothing()
        }
    }

    pub(crate) fn slept(sent: bool, nodes: [bool; Plan::NODES]) -> Passed
        ensures { result ≡ slept sent nodes }
    {
        Passed {
            result: Some(sent),
            slept: nodes,
            ..Passed::nothing()
        }
    }
}
