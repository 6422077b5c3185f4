// Demand 3 and the reasons of W-205: specs/ states them of every list of moves, proofs/ClaimsHold.antt and proofs/Reasons.antt prove them. There is no code.
#![tactic(auto)]
