// The laws of single precision are in specs/: no code.
#![tactic(auto)]
