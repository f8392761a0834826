// The marked examples are in specs/: no code.
#![tactic(auto)]
