// What the heads of a found word's blocks say: which blocks look fixed, the index blocks that they show and the value that those spell.
// Assumes nothing.
#![tactic(auto)]

pub mod looks;
pub mod pattern;
pub mod written;
