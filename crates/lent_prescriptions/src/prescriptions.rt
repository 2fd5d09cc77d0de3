// Prescriptions written and read for other languages: the job table and starts as bytes, what is read as marks and powers. Inner functions.
// Assumes nothing.
ghost use Rattle.std.specs.Prelude.{◌≡◌, length};
ghost use Rattle.refusals.specs.Numbers.{number_of, answer_of};
ghost use Rattle.cells.specs.Outcomes.{unwritten};
ghost use Rattle.jobs.specs.Slots.{entries};
ghost use Rattle.codes.specs.Bridge.{coding_of};
ghost use Rattle.lent_prescriptions.specs.Eyes.{eye_from, powers_lent};
ghost use Rattle.lent_prescriptions.specs.Prescriptions.{prescription_from, prescription_write_bytes_under, handed_marks, handed_powers};
ghost use Rattle.lent_prescriptions.specs.Prescriptions.{prescription_read_lent, prescription_read_bytes_under, without_room};

use crate::eyes;
use codes::Figures;
use jobs::JobTable;
use lent::starts;
use lent_jobs::table;
use prescription::eyes::Eye;
use prescription::texts::Prescription;
use refusals::Refusal;
use symbols::numbers::{BYTE_VALUES, NUMBER_BYTES};

// The job number's bytes, then kind and axis of both eyes.
const MARKS_LEN: usize = 8;

// Sphere and cylinder of both eyes, and the pupil distance.
const POWERS_LEN: usize = 5;

// Writes a job's number and the prescription of both eyes, four values each, and of the pupil distance into a word, with the table and the starts as bytes.
// Refusals: 1 2 10 3 5 16 17 12 23 14.
pub fn write_values(
    figures: Figures,
    table: &[u8],
    starts: &[u8],
    number: u32,
    right_kind: u8,
    right_sphere: f64,
    right_cylinder: f64,
    right_axis: u8,
    left_kind: u8,
    left_sphere: f64,
    left_cylinder: f64,
    left_axis: u8,
    distance: f64,
    word: &mut [u8],
) -> u8
    ensures { unwritten word.new result
        ≡ prescription_write_bytes_under (coding_of figures) table.now starts.now number
        (prescription_from (eye_from right_kind right_sphere right_cylinder right_axis)
        (eye_from left_kind left_sphere left_cylinder left_axis) distance) word.old }
{
    let right = eyes::eye_from(right_kind, right_sphere, right_cylinder, right_axis);
    let left = eyes::eye_from(left_kind, left_sphere, left_cylinder, left_axis);
    let prescription = of_eyes(right, left, distance);
    refusals::answer(write(figures, table, starts, number, prescription, word))
}

// The prescription of both eyes and the pupil distance.
fn of_eyes(right: Eye, left: Eye, distance: f64) -> Prescription
    ensures { result ≡ prescription_from right left distance }
{
    Prescription {
        right,
        left,
        pupil_distance: distance,
    }
}

// The same for a prescription. Refusals: 1 2 10 3 5 16 17 12 23 14.
fn write(
    figures: Figures,
    table: &[u8],
    starts: &[u8],
    number: u32,
    prescription: Prescription,
    word: &mut [u8],
) -> Result<(), Refusal>
    ensures { unwritten word.new (answer_of result)
        ≡ prescription_write_bytes_under (coding_of figures) table.now starts.now number prescription word.old }
{
    let held = table::lent_table(figures, table)?;
    let at = starts::placement_under(figures, starts);
    prescriptioncodec::prescription_write(figures, held, at, number, prescription, word)
}

// Reads a found word with the table as bytes, and puts its job number and its prescription into `marks` and `powers`. Refusals: 1 2, 10 for too few
// bytes, 3 4 7 19 8 9 19, by the Larsson code 3 4 21 8 9 19, 10, 16, 12 23 14.
pub fn read(figures: Figures, table: &[u8], word: &[u8], marks: &mut [u8], powers: &mut [f64]) -> u8
    ensures { powers_lent marks.new powers.new result
        ≡ prescription_read_bytes_under (coding_of figures) table.now word.now marks.old powers.old }
{
    refusals::answer(try_read(figures, table, word, marks, powers))
}

// The same as a Result.
fn try_read(
    figures: Figures,
    table: &[u8],
    word: &[u8],
    marks: &mut [u8],
    powers: &mut [f64],
) -> Result<(), Refusal>
    ensures { powers_lent marks.new powers.new (answer_of result)
        ≡ prescription_read_bytes_under (coding_of figures) table.now word.now marks.old powers.old }
{
    let held = table::lent_table(figures, table)?;
    read_held(figures, held, word, marks, powers)
}

// The same with the table that the bytes are.
fn read_held(
    figures: Figures,
    table: JobTable,
    word: &[u8],
    marks: &mut [u8],
    powers: &mut [f64],
) -> Result<(), Refusal>
    ensures { powers_lent marks.new powers.new (answer_of result)
        ≡ prescription_read_lent (coding_of figures) (entries table) word.now marks.old powers.old }
{
    if marks.len() != MARKS_LEN {
        return Err(without_room(figures, table));
    }
    if powers.len() != POWERS_LEN {
        return Err(without_room(figures, table));
    }
    let (number, prescription) = prescriptioncodec::prescription_read(figures, table, word)?;
    put_marks(number, prescription, marks);
    put_powers(prescription, powers);
    Ok(())
}

// What is refused where a buffer has another length: 1 2 10, or else 3.
fn without_room(figures: Figures, table: JobTable) -> Refusal
    ensures { number_of result ≡ without_room (coding_of figures) (entries table) }
{
    if table.twice() {
        return Refusal::Invalid;
    }
    table::without_table(figures)
}

// The job number, and kind and axis of both eyes.
fn put_marks(number: u32, prescription: Prescription, marks: &mut [u8])
    requires { length marks.old ≡ 8 }
    ensures { marks.new ≡ handed_marks number prescription }
{
    payloads::spell_value(BYTE_VALUES, number as u64, &mut marks[..NUMBER_BYTES]);
    let right = prescription.right;
    let left = prescription.left;
    marks[4] = eyes::kind_of(right);
    marks[5] = eyes::axis_of(right);
    marks[6] = eyes::kind_of(left);
    marks[7] = eyes::axis_of(left);
}

// Sphere and cylinder of both eyes, and the pupil distance.
fn put_powers(prescription: Prescription, powers: &mut [f64])
    requires { length powers.old ≡ 5 }
    ensures { powers.new ≡ handed_powers prescription }
{
    let right = prescription.right;
    let left = prescription.left;
    powers[0] = eyes::sphere_of(right);
    powers[1] = eyes::cylinder_of(right);
    powers[2] = eyes::sphere_of(left);
    powers[3] = eyes::cylinder_of(left);
    powers[4] = prescription.pupil_distance;
}
