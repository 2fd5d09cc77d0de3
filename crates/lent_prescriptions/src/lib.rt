// Eyes and prescriptions as programs in other languages hold them: bytes, which are marks, and floats, which are powers. Inner functions of `exports`.
// Assumes nothing.
#![tactic(auto)]

pub mod eyes;
pub mod prescriptions;
