// A list of moves from power-on, what passed in it, and the terms told by that. There is no code here: `specs/` has the definitions, `proofs/` each word on computed lists.
#![tactic(auto)]
