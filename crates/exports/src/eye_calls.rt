// The entry points on eyes and on strips with prescriptions for programs in other languages. Assumes nothing.
ghost use Rattle.std.specs.Prelude.{◌≡◌};
ghost use Rattle.cells.specs.Figures.{params};
ghost use Rattle.cells.specs.Outcomes.{unwritten};
ghost use Rattle.lent_prescriptions.specs.Eyes.{eye_from, powers_lent, transpose_lent, power_lent, equivalent_lent};
ghost use Rattle.lent_prescriptions.specs.Prescriptions.{prescription_from, prescription_write_bytes_out, prescription_read_bytes_out};

use codes::Figures;
use lent_prescriptions::{eyes, prescriptions};
use params::Params;

// Transposing: the eye that four values are, with the other sign of its cylinder; kind and axis into `marks`, sphere and cylinder into `powers`.
// Refusals: 3 16.
#[unsafe(no_mangle)]
pub extern "C" fn burgzemi_transpose(
    kind: u8,
    sphere: f64,
    cylinder: f64,
    axis: u8,
    marks: &mut [u8],
    powers: &mut [f64],
) -> u8
    ensures { powers_lent marks.new powers.new result
        ≡ transpose_lent (eye_from kind sphere cylinder axis) marks.old powers.old }
{
    let eye = eyes::eye_from(kind, sphere, cylinder, axis);
    eyes::transpose(eye, marks, powers)
}

// The spherical equivalent of the eye that four values are. Refusals: 3 16.
#[unsafe(no_mangle)]
pub extern "C" fn burgzemi_spherical_equivalent(
    kind: u8,
    sphere: f64,
    cylinder: f64,
    axis: u8,
    power: &mut [f64],
) -> u8
    ensures { power_lent power.new result ≡ equivalent_lent (eye_from kind sphere cylinder axis) power.old }
{
    let eye = eyes::eye_from(kind, sphere, cylinder, axis);
    eyes::spherical_equivalent(eye, power)
}

// Prescription write: the word of a placement, a job number that the table has open and the prescription of both eyes and the pupil distance.
// Refusals: 1 2 10 3 5 16 17 12 23 14.
#[unsafe(no_mangle)]
pub extern "C" fn burgzemi_prescription_write(
    n: u32,
    q: u32,
    m: u32,
    b: u32,
    table: &[u8],
    starts: &[u8],
    number: u32,
    right_kind: u8,
    right_sphere: f64,
    right_cylinder: f64,
    right_axis: u8,
    left_kind: u8,
    left_sphere: f64,
    left_cylinder: f64,
    left_axis: u8,
    distance: f64,
    word: &mut [u8],
) -> u8
    ensures { unwritten word.new result
        ≡ prescription_write_bytes_out (params n q m b) table.now starts.now number
        (prescription_from (eye_from right_kind right_sphere right_cylinder right_axis)
        (eye_from left_kind left_sphere left_cylinder left_axis) distance) word.old }
{
    prescriptions::write_values(
        Figures::Ranked(Params { n, q, m, b }),
        table,
        starts,
        number,
        right_kind,
        right_sphere,
        right_cylinder,
        right_axis,
        left_kind,
        left_sphere,
        left_cylinder,
        left_axis,
        distance,
        word,
    )
}

// Prescription read: the job number, and kinds and axes of both eyes, into `marks`; the powers of both eyes and the pupil distance into `powers`.
// Refusals: 1 2, 10 for K, 3 4 7 19 8 9 19, 10, 16, 12 23 14.
#[unsafe(no_mangle)]
pub extern "C" fn burgzemi_prescription_read(
    n: u32,
    q: u32,
    m: u32,
    b: u32,
    table: &[u8],
    word: &[u8],
    marks: &mut [u8],
    powers: &mut [f64],
) -> u8
    ensures { powers_lent marks.new powers.new result
        ≡ prescription_read_bytes_out (params n q m b) table.now word.now marks.old powers.old }
{
    prescriptions::read(
        Figures::Ranked(Params { n, q, m, b }),
        table,
        word,
        marks,
        powers,
    )
}
