// What is promised of the engine is in specs/: no code.
#![tactic(auto)]
