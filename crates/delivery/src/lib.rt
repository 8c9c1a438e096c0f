// A frame passed hand to hand through a whole road train: statements and proofs over what `readings` promises of the route, and no code.
#![tactic(auto)]
