// Prescriptions for the edger: eyes in dioptres and the pupil distance in millimetres, in memory as floats and on the tray as a job's text.
// Assumes nothing.
#![tactic(auto)]

mod counts;
pub mod eyes;
mod fields;
pub mod texts;
