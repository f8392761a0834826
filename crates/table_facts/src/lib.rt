// Theorems about the tables of a given list are in specs/: no code.
#![tactic(auto)]
