// Demands 1 and 3 of everything that can be called: statements (specs/) and their proofs, no code. Assumes nothing.
#![tactic(auto)]
