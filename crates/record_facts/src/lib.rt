// Theorems about records are in specs/ and proofs/: no code.
#![tactic(auto)]
