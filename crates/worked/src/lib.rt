// Document 01's worked numbers, proved together as one list over the definitions of all layers, and no code.
#![tactic(auto)]
