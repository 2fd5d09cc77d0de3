// What programs in other languages lend as bytes, words' part: the starts of a placement, figures alone, words and their check with these, under the figures
// of any code. Inner functions of `exports`. Assumes nothing.
#![tactic(auto)]

pub mod check;
pub mod figures;
pub mod starts;
pub mod words;
