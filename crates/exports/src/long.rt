// The entry points of strips with one long burst (Construction B) for programs in other languages: the calls of Construction A, with n, q and b.
// Assumes nothing.
ghost use Rattle.std.specs.Prelude.{◌≡◌};
ghost use Rattle.cells.specs.Outcomes.{unwritten};
ghost use Rattle.construction_b.specs.Figures.{long_params};
ghost use Rattle.construction_b.specs.Outcomes.{coding};
ghost use Rattle.decoder.specs.Exported.{lent_as, exported_under};
ghost use Rattle.jobcodec.specs.Given.{seen};
ghost use Rattle.lanes.specs.Outcomes.{unfilled, interleave_under, deinterleave_under};
ghost use Rattle.lent.specs.Check.{verify_bytes_under, verdict_number};
ghost use Rattle.lent.specs.Covering.{cover_lent, cover_bytes_under};
ghost use Rattle.lent.specs.Figures.{figures_lent, figures_lent_under};
ghost use Rattle.lent_jobs.specs.Jobs.{job_write_bytes_under, job_read_bytes_under};
ghost use Rattle.lent.specs.Words.{encode_bytes_under};
ghost use Rattle.lent_prescriptions.specs.Eyes.{eye_from, powers_lent};
ghost use Rattle.lent_prescriptions.specs.Prescriptions.{prescription_from, prescription_write_bytes_under, prescription_read_bytes_under};

use codes::Figures;
use lent::{check, figures, starts, words};
use lent_jobs::job;
use lent_prescriptions::prescriptions;
use params::long::LongParams;

// Figures alone: T, r, k and K, four numbers. Refusals: 1 2 3.
#[unsafe(no_mangle)]
pub extern "C" fn burgzemi_long_figures(n: u32, q: u32, b: u32, figures: &mut [u64]) -> u8
    ensures { figures_lent result figures.new ≡ figures_lent_under (coding (long_params n q b)) figures.old }
{
    figures::figures(Figures::Long(LongParams { n, q, b }), figures)
}

// Word write: the word of a placement, whose start is 2 bytes and the high byte first, and of a message. Refusals: 1 2 3 5 4.
#[unsafe(no_mangle)]
pub extern "C" fn burgzemi_long_encode(
    n: u32,
    q: u32,
    b: u32,
    start: &[u8],
    message: &[u8],
    word: &mut [u8],
) -> u8
    ensures { unwritten word.new result
        ≡ encode_bytes_under (coding (long_params n q b)) start.now message.now word.old }
{
    words::encode(Figures::Long(LongParams { n, q, b }), start, message, word)
}

// Word read: the message, and the start of the burst. Refusals: 1 2 3 4 7 19 8 9 19.
#[unsafe(no_mangle)]
pub extern "C" fn burgzemi_long_decode(
    n: u32,
    q: u32,
    b: u32,
    word: &[u8],
    message: &mut [u8],
    start: &mut [u8],
) -> u8
    ensures { lent_as result message.new start.new
        ≡ exported_under (coding (long_params n q b)) word.now message.old start.old }
{
    words::decode(Figures::Long(LongParams { n, q, b }), word, message, start)
}

// The check of a word against a placement and a message: 0 where it agrees, 255 where it doesn't. Refusals: 1 2 3 5 4.
#[unsafe(no_mangle)]
pub extern "C" fn burgzemi_long_verify(
    n: u32,
    q: u32,
    b: u32,
    start: &[u8],
    message: &[u8],
    word: &[u8],
) -> u8
    ensures { result ≡ verdict_number (verify_bytes_under (coding (long_params n q b)) start.now message.now word.now) }
{
    check::verify(Figures::Long(LongParams { n, q, b }), start, message, word)
}

// Covering: the start of the placement of least rank that covers the defect map. Refusals: 1 2 3 4 6.
#[unsafe(no_mangle)]
pub extern "C" fn burgzemi_long_cover(n: u32, q: u32, b: u32, map: &[u8], start: &mut [u8]) -> u8
    ensures { cover_lent result start.new ≡ cover_bytes_under (coding (long_params n q b)) map.now start.old }
{
    starts::cover_bytes(Figures::Long(LongParams { n, q, b }), map, start)
}

// Job write: the word of a placement and a payload whose job the table has open; number 0 is no job. Refusals: 1 2 10 3 5 17 12 23 14.
#[unsafe(no_mangle)]
pub extern "C" fn burgzemi_long_job_write(
    n: u32,
    q: u32,
    b: u32,
    table: &[u8],
    start: &[u8],
    payload: &[u8],
    word: &mut [u8],
) -> u8
    ensures { unwritten word.new result
        ≡ job_write_bytes_under (coding (long_params n q b)) table.now start.now payload.now word.old }
{
    job::write(
        Figures::Long(LongParams { n, q, b }),
        table,
        start,
        payload,
        word,
    )
}

// Job read: the payload of a found word whose job the table has open. Refusals: 1 2, 10 for K, 3 4 7 19 8 9 19, 10, 12 23 14.
#[unsafe(no_mangle)]
pub extern "C" fn burgzemi_long_job_read(
    n: u32,
    q: u32,
    b: u32,
    table: &[u8],
    word: &[u8],
    payload: &mut [u8],
) -> u8
    ensures { seen result payload.new
        ≡ job_read_bytes_under (coding (long_params n q b)) table.now word.now payload.old }
{
    job::read(Figures::Long(LongParams { n, q, b }), table, word, payload)
}

// Words to the strip: `depth` words of n symbols, one after another, side by side. Refusals: 1 2 18 3 4.
#[unsafe(no_mangle)]
pub extern "C" fn burgzemi_long_interleave(
    n: u32,
    q: u32,
    b: u32,
    depth: u32,
    words: &[u8],
    strip: &mut [u8],
) -> u8
    ensures { unfilled strip.new result ≡ interleave_under (coding (long_params n q b)) depth words.now strip.old }
{
    let laid = lanes::interleave(Figures::Long(LongParams { n, q, b }), depth, words, strip);
    refusals::answer(laid)
}

// The strip to words, one after another. Refusals: 1 2 18 3 4.
#[unsafe(no_mangle)]
pub extern "C" fn burgzemi_long_deinterleave(
    n: u32,
    q: u32,
    b: u32,
    depth: u32,
    strip: &[u8],
    words: &mut [u8],
) -> u8
    ensures { unfilled words.new result ≡ deinterleave_under (coding (long_params n q b)) depth strip.now words.old }
{
    let taken = lanes::deinterleave(Figures::Long(LongParams { n, q, b }), depth, strip, words);
    refusals::answer(taken)
}

// Prescription write: the word of a placement, a job number that the table has open and the prescription of both eyes and the pupil distance.
// Refusals: 1 2 10 3 5 16 17 12 23 14.
#[unsafe(no_mangle)]
pub extern "C" fn burgzemi_long_prescription_write(
    n: u32,
    q: u32,
    b: u32,
    table: &[u8],
    start: &[u8],
    number: u32,
    right_kind: u8,
    right_sphere: f64,
    right_cylinder: f64,
    right_axis: u8,
    left_kind: u8,
    left_sphere: f64,
    left_cylinder: f64,
    left_axis: u8,
    distance: f64,
    word: &mut [u8],
) -> u8
    ensures { unwritten word.new result
        ≡ prescription_write_bytes_under (coding (long_params n q b)) table.now start.now number
        (prescription_from (eye_from right_kind right_sphere right_cylinder right_axis)
        (eye_from left_kind left_sphere left_cylinder left_axis) distance) word.old }
{
    prescriptions::write_values(
        Figures::Long(LongParams { n, q, b }),
        table,
        start,
        number,
        right_kind,
        right_sphere,
        right_cylinder,
        right_axis,
        left_kind,
        left_sphere,
        left_cylinder,
        left_axis,
        distance,
        word,
    )
}

// Prescription read: the job number, and kinds and axes of both eyes, into `marks`; the powers of both eyes and the pupil distance into `powers`.
// Refusals: 1 2, 10 for K, 3 4 7 19 8 9 19, 10, 16, 12 23 14.
#[unsafe(no_mangle)]
pub extern "C" fn burgzemi_long_prescription_read(
    n: u32,
    q: u32,
    b: u32,
    table: &[u8],
    word: &[u8],
    marks: &mut [u8],
    powers: &mut [f64],
) -> u8
    ensures { powers_lent marks.new powers.new result
        ≡ prescription_read_bytes_under (coding (long_params n q b)) table.now word.now marks.old powers.old }
{
    prescriptions::read(
        Figures::Long(LongParams { n, q, b }),
        table,
        word,
        marks,
        powers,
    )
}
