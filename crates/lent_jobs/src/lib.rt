// What programs in other languages lend as bytes, jobs' part: the job table, calls on it, and jobs with it, under the figures of any code. Inner functions of
// `exports`. Assumes nothing.
#![tactic(auto)]

pub mod calls;
pub mod job;
pub mod table;
