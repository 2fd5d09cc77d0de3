// The entry points of the older strips (the Larsson code) for programs in other languages: the calls of Construction A, under the Larsson code's figures.
// Assumes nothing.
ghost use Rattle.std.specs.Prelude.{◌≡◌};
ghost use Rattle.cells.specs.Outcomes.{unwritten};
ghost use Rattle.cells.specs.Figures.{params};
ghost use Rattle.larsson.specs.Outcomes.{coding};
ghost use Rattle.decoder.specs.Exported.{lent_as, exported_under};
ghost use Rattle.jobcodec.specs.Given.{seen};
ghost use Rattle.lanes.specs.Outcomes.{unfilled, interleave_under, deinterleave_under};
ghost use Rattle.lent.specs.Check.{verify_bytes_under, verdict_number};
ghost use Rattle.lent.specs.Covering.{cover_lent, cover_bytes_under};
ghost use Rattle.lent.specs.Figures.{figures_lent, figures_lent_under};
ghost use Rattle.lent_jobs.specs.Jobs.{job_write_bytes_under, job_read_bytes_under};
ghost use Rattle.lent.specs.Words.{encode_bytes_under};
ghost use Rattle.lent_prescriptions.specs.Eyes.{eye_from, powers_lent};
ghost use Rattle.lent_prescriptions.specs.Prescriptions.{prescription_from, prescription_write_bytes_under, prescription_read_bytes_under};

use codes::Figures;
use lent::{check, figures, starts, words};
use lent_jobs::job;
use lent_prescriptions::prescriptions;
use params::Params;

// Figures alone: T, R, k and K, four numbers. Refusals: 1 2 3.
#[unsafe(no_mangle)]
pub extern "C" fn burgzemi_larsson_figures(
    n: u32,
    q: u32,
    m: u32,
    b: u32,
    figures: &mut [u64],
) -> u8
    ensures { figures_lent result figures.new ≡ figures_lent_under (coding (params n q m b)) figures.old }
{
    figures::figures(Figures::Larsson(Params { n, q, m, b }), figures)
}

// Word write: the word of a placement, whose starts are 2 bytes each and the high byte first, and of a message. Refusals: 1 2 3 5 4.
#[unsafe(no_mangle)]
pub extern "C" fn burgzemi_larsson_encode(
    n: u32,
    q: u32,
    m: u32,
    b: u32,
    starts: &[u8],
    message: &[u8],
    word: &mut [u8],
) -> u8
    ensures { unwritten word.new result
        ≡ encode_bytes_under (coding (params n q m b)) starts.now message.now word.old }
{
    words::encode(
        Figures::Larsson(Params { n, q, m, b }),
        starts,
        message,
        word,
    )
}

// Word read: the message, and the starts of the bursts. Refusals: 1 2 3 4 21 8 9 19.
#[unsafe(no_mangle)]
pub extern "C" fn burgzemi_larsson_decode(
    n: u32,
    q: u32,
    m: u32,
    b: u32,
    word: &[u8],
    message: &mut [u8],
    starts: &mut [u8],
) -> u8
    ensures { lent_as result message.new starts.new
        ≡ exported_under (coding (params n q m b)) word.now message.old starts.old }
{
    words::decode(
        Figures::Larsson(Params { n, q, m, b }),
        word,
        message,
        starts,
    )
}

// The check of a word against a placement and a message: 0 where it agrees, 255 where it doesn't. Refusals: 1 2 3 5 4.
#[unsafe(no_mangle)]
pub extern "C" fn burgzemi_larsson_verify(
    n: u32,
    q: u32,
    m: u32,
    b: u32,
    starts: &[u8],
    message: &[u8],
    word: &[u8],
) -> u8
    ensures { result ≡ verdict_number (verify_bytes_under (coding (params n q m b)) starts.now message.now word.now) }
{
    check::verify(
        Figures::Larsson(Params { n, q, m, b }),
        starts,
        message,
        word,
    )
}

// Covering: the starts of the placement of least rank that covers the defect map. Refusals: 1 2 3 4 6.
#[unsafe(no_mangle)]
pub extern "C" fn burgzemi_larsson_cover(
    n: u32,
    q: u32,
    m: u32,
    b: u32,
    map: &[u8],
    starts: &mut [u8],
) -> u8
    ensures { cover_lent result starts.new ≡ cover_bytes_under (coding (params n q m b)) map.now starts.old }
{
    starts::cover_bytes(Figures::Larsson(Params { n, q, m, b }), map, starts)
}

// Job write: the word of a placement and a payload whose job the table has open; number 0 is no job. Refusals: 1 2 10 3 5 17 12 23 14.
#[unsafe(no_mangle)]
pub extern "C" fn burgzemi_larsson_job_write(
    n: u32,
    q: u32,
    m: u32,
    b: u32,
    table: &[u8],
    starts: &[u8],
    payload: &[u8],
    word: &mut [u8],
) -> u8
    ensures { unwritten word.new result
        ≡ job_write_bytes_under (coding (params n q m b)) table.now starts.now payload.now word.old }
{
    job::write(
        Figures::Larsson(Params { n, q, m, b }),
        table,
        starts,
        payload,
        word,
    )
}

// Job read: the payload of a found word whose job the table has open. Refusals: 1 2, 10 for K, 3 4 21 8 9 19, 10, 12 23 14.
#[unsafe(no_mangle)]
pub extern "C" fn burgzemi_larsson_job_read(
    n: u32,
    q: u32,
    m: u32,
    b: u32,
    table: &[u8],
    word: &[u8],
    payload: &mut [u8],
) -> u8
    ensures { seen result payload.new
        ≡ job_read_bytes_under (coding (params n q m b)) table.now word.now payload.old }
{
    job::read(
        Figures::Larsson(Params { n, q, m, b }),
        table,
        word,
        payload,
    )
}

// Words to the strip: `depth` words of n symbols, one after another, side by side. Refusals: 1 2 18 3 4.
#[unsafe(no_mangle)]
pub extern "C" fn burgzemi_larsson_interleave(
    n: u32,
    q: u32,
    m: u32,
    b: u32,
    depth: u32,
    words: &[u8],
    strip: &mut [u8],
) -> u8
    ensures { unfilled strip.new result ≡ interleave_under (coding (params n q m b)) depth words.now strip.old }
{
    let laid = lanes::interleave(Figures::Larsson(Params { n, q, m, b }), depth, words, strip);
    refusals::answer(laid)
}

// The strip to words, one after another. Refusals: 1 2 18 3 4.
#[unsafe(no_mangle)]
pub extern "C" fn burgzemi_larsson_deinterleave(
    n: u32,
    q: u32,
    m: u32,
    b: u32,
    depth: u32,
    strip: &[u8],
    words: &mut [u8],
) -> u8
    ensures { unfilled words.new result ≡ deinterleave_under (coding (params n q m b)) depth strip.now words.old }
{
    let taken = lanes::deinterleave(Figures::Larsson(Params { n, q, m, b }), depth, strip, words);
    refusals::answer(taken)
}

// Prescription write: the word of a placement, a job number that the table has open and the prescription of both eyes and the pupil distance.
// Refusals: 1 2 10 3 5 16 17 12 23 14.
#[unsafe(no_mangle)]
pub extern "C" fn burgzemi_larsson_prescription_write(
    n: u32,
    q: u32,
    m: u32,
    b: u32,
    table: &[u8],
    starts: &[u8],
    number: u32,
    right_kind: u8,
    right_sphere: f64,
    right_cylinder: f64,
    right_axis: u8,
    left_kind: u8,
    left_sphere: f64,
    left_cylinder: f64,
    left_axis: u8,
    distance: f64,
    word: &mut [u8],
) -> u8
    ensures { unwritten word.new result
        ≡ prescription_write_bytes_under (coding (params n q m b)) table.now starts.now number
        (prescription_from (eye_from right_kind right_sphere right_cylinder right_axis)
        (eye_from left_kind left_sphere left_cylinder left_axis) distance) word.old }
{
    prescriptions::write_values(
        Figures::Larsson(Params { n, q, m, b }),
        table,
        starts,
        number,
        right_kind,
        right_sphere,
        right_cylinder,
        right_axis,
        left_kind,
        left_sphere,
        left_cylinder,
        left_axis,
        distance,
        word,
    )
}

// Prescription read: the job number, and kinds and axes of both eyes, into `marks`; the powers of both eyes and the pupil distance into `powers`.
// Refusals: 1 2, 10 for K, 3 4 21 8 9 19, 10, 16, 12 23 14.
#[unsafe(no_mangle)]
pub extern "C" fn burgzemi_larsson_prescription_read(
    n: u32,
    q: u32,
    m: u32,
    b: u32,
    table: &[u8],
    word: &[u8],
    marks: &mut [u8],
    powers: &mut [f64],
) -> u8
    ensures { powers_lent marks.new powers.new result
        ≡ prescription_read_bytes_under (coding (params n q m b)) table.now word.now marks.old powers.old }
{
    prescriptions::read(
        Figures::Larsson(Params { n, q, m, b }),
        table,
        word,
        marks,
        powers,
    )
}
