// A whole log imported: statements alone.
#![tactic(auto)]
