// The proved cases of R7.10: specs/Cases.antt lists them, proofs/CasesHold.antt proves the list. There is no code.
#![tactic(auto)]
