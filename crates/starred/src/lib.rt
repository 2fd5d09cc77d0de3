// The starred bench strips of document 01 as one table: definitions and a proof, no code. Assumes nothing.
#![tactic(auto)]
