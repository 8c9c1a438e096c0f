// What stands in a sequence of frames, and that a node hands out exactly that: statements and proofs over what `receiver` promises, and no code.
#![tactic(auto)]
