// The sub-blocks of a Larsson word: which of them bear the rank, and what most of them hold in a found word. Assumes nothing.
#![tactic(auto)]

pub mod bearers;
pub mod held;
pub mod majority;
