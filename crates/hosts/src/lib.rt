// A host in C that offers a sequence of frames to the library, and demand 3 as it sees it: statements and proofs over what `castanhiu_receive` promises, and no code.
#![tactic(auto)]
