// The entry points for programs in other languages, on numbers and lent bytes, numbers and floats. Each answers 0 or the refusal, which leaves every lent
// buffer as it was; the check of a word has 255 for "no" besides. C links the archive of this crate. Assumes nothing.
#![tactic(auto)]

ghost use Rattle.std.specs.Prelude.{◌≡◌};
ghost use Rattle.cells.specs.Figures.{params};
ghost use Rattle.construction_a.specs.Outcomes.{unwritten, coding};
ghost use Rattle.decoder.specs.Exported.{lent_as, exported_out};
ghost use Rattle.jobcodec.specs.Given.{seen};
ghost use Rattle.lanes.specs.Outcomes.{unfilled, interleave_out, deinterleave_out};
ghost use Rattle.lent.specs.Check.{verify_bytes_under, verdict_number};
ghost use Rattle.lent.specs.Covering.{cover_lent, cover_bytes_out};
ghost use Rattle.lent.specs.Figures.{figures_lent, figures_lent_under};
ghost use Rattle.lent_jobs.specs.Jobs.{job_write_bytes_out, job_read_bytes_out};
ghost use Rattle.lent.specs.Words.{encode_bytes_out};

use codes::Figures;
use lent::{check, figures, starts, words};
use lent_jobs::job;
use params::Params;

pub mod calls;
pub mod eye_calls;
pub mod larsson_code;
pub mod long;
pub mod moves;

// Figures alone: T, r, k and K, four numbers. Refusals: 1 2 3.
#[unsafe(no_mangle)]
pub extern "C" fn burgzemi_figures(n: u32, q: u32, m: u32, b: u32, figures: &mut [u64]) -> u8
    ensures { figures_lent result figures.new ≡ figures_lent_under (coding (params n q m b)) figures.old }
{
    figures::figures(Figures::Ranked(Params { n, q, m, b }), figures)
}

// Word read: the message, and the starts of the bursts, 2 bytes each and the high byte first. Refusals: 1 2 3 4 7 19 8 9 19.
#[unsafe(no_mangle)]
pub extern "C" fn burgzemi_decode(
    n: u32,
    q: u32,
    m: u32,
    b: u32,
    word: &[u8],
    message: &mut [u8],
    starts: &mut [u8],
) -> u8
    ensures { lent_as result message.new starts.new
        ≡ exported_out (params n q m b) word.now message.old starts.old }
{
    words::decode(
        Figures::Ranked(Params { n, q, m, b }),
        word,
        message,
        starts,
    )
}

// Word write: the word of a placement, whose starts are 2 bytes each and the high byte first, and of a message. Refusals: 1 2 3 5 4.
#[unsafe(no_mangle)]
pub extern "C" fn burgzemi_encode(
    n: u32,
    q: u32,
    m: u32,
    b: u32,
    starts: &[u8],
    message: &[u8],
    word: &mut [u8],
) -> u8
    ensures { unwritten word.new result ≡ encode_bytes_out (params n q m b) starts.now message.now word.old }
{
    words::encode(
        Figures::Ranked(Params { n, q, m, b }),
        starts,
        message,
        word,
    )
}

// The check of a word against a placement and a message: 0 where it agrees outside the bursts with the word that they give, 255 where it doesn't.
// Refusals: 1 2 3 5 4.
#[unsafe(no_mangle)]
pub extern "C" fn burgzemi_verify(
    n: u32,
    q: u32,
    m: u32,
    b: u32,
    starts: &[u8],
    message: &[u8],
    word: &[u8],
) -> u8
    ensures { result ≡ verdict_number (verify_bytes_under (coding (params n q m b)) starts.now message.now word.now) }
{
    check::verify(
        Figures::Ranked(Params { n, q, m, b }),
        starts,
        message,
        word,
    )
}

// Covering: the starts of the placement of least rank that covers the defect map. Refusals: 1 2 3 4 6.
#[unsafe(no_mangle)]
pub extern "C" fn burgzemi_cover(
    n: u32,
    q: u32,
    m: u32,
    b: u32,
    map: &[u8],
    starts: &mut [u8],
) -> u8
    ensures { cover_lent result starts.new ≡ cover_bytes_out (params n q m b) map.now starts.old }
{
    starts::cover_bytes(Figures::Ranked(Params { n, q, m, b }), map, starts)
}

// Job write: the word of a placement and a payload whose job the table has open; number 0 is no job. Refusals: 1 2 10 3 5 17 12 23 14.
#[unsafe(no_mangle)]
pub extern "C" fn burgzemi_job_write(
    n: u32,
    q: u32,
    m: u32,
    b: u32,
    table: &[u8],
    starts: &[u8],
    payload: &[u8],
    word: &mut [u8],
) -> u8
    ensures { unwritten word.new result
        ≡ job_write_bytes_out (params n q m b) table.now starts.now payload.now word.old }
{
    job::write(
        Figures::Ranked(Params { n, q, m, b }),
        table,
        starts,
        payload,
        word,
    )
}

// Job read: the payload of a found word whose job the table has open. Refusals: 1 2, 10 for K, 3 4 7 19 8 9 19, 10, 12 23 14.
#[unsafe(no_mangle)]
pub extern "C" fn burgzemi_job_read(
    n: u32,
    q: u32,
    m: u32,
    b: u32,
    table: &[u8],
    word: &[u8],
    payload: &mut [u8],
) -> u8
    ensures { seen result payload.new ≡ job_read_bytes_out (params n q m b) table.now word.now payload.old }
{
    job::read(Figures::Ranked(Params { n, q, m, b }), table, word, payload)
}

// Words to the strip: `depth` words of n symbols, one after another, side by side. Refusals: 1 2 18 3 4.
#[unsafe(no_mangle)]
pub extern "C" fn burgzemi_interleave(
    n: u32,
    q: u32,
    m: u32,
    b: u32,
    depth: u32,
    words: &[u8],
    strip: &mut [u8],
) -> u8
    ensures { unfilled strip.new result ≡ interleave_out (params n q m b) depth words.now strip.old }
{
    let laid = lanes::interleave(Figures::Ranked(Params { n, q, m, b }), depth, words, strip);
    refusals::answer(laid)
}

// The strip to words, one after another. Refusals: 1 2 18 3 4.
#[unsafe(no_mangle)]
pub extern "C" fn burgzemi_deinterleave(
    n: u32,
    q: u32,
    m: u32,
    b: u32,
    depth: u32,
    strip: &[u8],
    words: &mut [u8],
) -> u8
    ensures { unfilled words.new result ≡ deinterleave_out (params n q m b) depth strip.now words.old }
{
    let taken = lanes::deinterleave(Figures::Ranked(Params { n, q, m, b }), depth, strip, words);
    refusals::answer(taken)
}
