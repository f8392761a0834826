// Definitions and laws on lists are in specs/: no code.
#![tactic(auto)]
