// The records that write and read jobs. Assumes nothing.
ghost use Rattle.std.specs.Prelude.{◌≡◌, ◌+◌, ◌*◌, ◌≤◌, length, drop, replicate};
ghost use Rattle.refusals.specs.Numbers.{answer_of};
ghost use Rattle.cells.specs.Figures.{max_word};
ghost use Rattle.cells.specs.Outcomes.{unwritten};
ghost use Rattle.jobs.specs.Slots.{entries};
ghost use Rattle.jobcodec.specs.JobWrite.{job_write_under};
ghost use Rattle.jobcodec.specs.JobRead.{job_read_under};
ghost use Rattle.jobcodec.specs.Given.{seen};
ghost use Rattle.codes.specs.Given.{coding_in};
ghost use Rattle.codes.specs.Bridge.{coding_of};
ghost use Rattle.placements.specs.Bridge.{held_as};
ghost use Rattle.lines.specs.Lines.{max_line};
ghost use Rattle.records.specs.Records.{record_head_len, write_len, read_len, payload_len_of, record_starts, payload_of, current as currentOf};
ghost use Rattle.transfer.specs.Steps.{write_out, read_out, write_step, read_step};
ghost use Rattle.records.specs.Bridge.{last_figures, session_of};
ghost use Rattle.transfer.specs.Bridge.{Shown, Put, ServesTold, RecordLaid, Whole};

use crate::{MAX_WORD, SHORT_WORD, StepAnswer, counted, stop};
use codes::WordLayout;
use jobs::JobTable;
use params::bytes;
use placements::Placement;
use records::{HEAD_LEN, Known, LaidFigures, Session};
use refusals::Refusal;

// W: the word of the placement and the payload.
pub fn serve_write(session: Session, known: Known, received: &[u8], line: &mut [u8]) -> StepAnswer
    requires { Whole session known line.old received.now (write_len (currentOf (last_figures session.figures))) }
    ensures { Shown result line.old line.new
        (write_out (session_of session) received.now (currentOf (last_figures session.figures))) }
{
    let Some(laid) = known.current else {
        return stop(session, line);
    };
    let table = session.table;
    let len = write_laid(table, laid, known.twice, received, line);
    counted(session, len)
}

// The same by the last accepted figures and their layout.
fn write_laid(
    table: JobTable,
    laid: LaidFigures,
    twice: bool,
    received: &[u8],
    line: &mut [u8],
) -> usize
    requires { RecordLaid (entries table) line.old laid.figures laid.layout twice (record_head_len + 2 * laid.layout.m) received.now }
    ensures { Put result line.old line.new (λ s. write_step s (job_write_under (coding_of laid.figures) (entries table)
        (record_starts laid.figures received.now) (payload_of laid.figures received.now) (replicate (coding_of laid.figures).codec.word_len 0))) }
{
    let layout = laid.layout;
    let m = layout.m;
    let n = layout.n;
    let at = records::placement_in(received, m);
    let from = HEAD_LEN + 2 * m;
    if n <= SHORT_WORD {
        return write_in::<SHORT_WORD>(table, layout, twice, at, &received[from..], line);
    }
    write_in::<MAX_WORD>(table, layout, twice, at, &received[from..], line)
}

// W, with a word in an array that has room for it: an array is cleared as a whole, and a short word should not pay for a long one.
fn write_in<const ROOM: usize>(
    table: JobTable,
    layout: WordLayout,
    twice: bool,
    at: Placement,
    payload: &[u8],
    line: &mut [u8],
) -> usize
    requires { (max_line ≤ length line.old) × (layout.n ≤ ROOM) × (ROOM ≤ max_word) × ServesTold layout twice (entries table) }
    ensures { Put result line.old line.new
        (λ s. write_step s (job_write_under (coding_in layout) (entries table) (held_as at) payload.now (replicate layout.n 0))) }
{
    let mut word = [0u8; ROOM];
    write_word(
        table,
        layout,
        twice,
        at,
        payload,
        &mut word[..layout.n],
        line,
    )
}

// W, with a lent word that holds 0.
fn write_word(
    table: JobTable,
    layout: WordLayout,
    twice: bool,
    at: Placement,
    payload: &[u8],
    word: &mut [u8],
    line: &mut [u8],
) -> usize
    requires { (max_line ≤ length line.old) × (length word.old ≤ max_word) × ServesTold layout twice (entries table) }
    ensures { Put result line.old line.new
        (λ s. write_step s (job_write_under (coding_in layout) (entries table) (held_as at) payload.now word.old)) }
{
    match job_write(layout, twice, table, at, payload, word) {
        Err(refusal) => lines::put_refusal(line, b'W', u8::from(refusal)),
        Ok(()) => lines::put_word(line, word),
    }
}

// Job write for figures that fit, with what is known of the table.
fn job_write(
    layout: WordLayout,
    twice: bool,
    table: JobTable,
    at: Placement,
    payload: &[u8],
    word: &mut [u8],
) -> Result<(), Refusal>
    requires { ServesTold layout twice (entries table) }
    ensures { unwritten word.new (answer_of result) ≡ job_write_under (coding_in layout) (entries table) (held_as at) payload.now word.old }
{
    if twice {
        return Err(Refusal::Invalid);
    }
    jobcodec::write_laid(layout, table, at, payload, word)
}

// R: the payload of the word.
pub fn serve_read(session: Session, known: Known, received: &[u8], line: &mut [u8]) -> StepAnswer
    requires { Whole session known line.old received.now (read_len (currentOf (last_figures session.figures))) }
    ensures { Shown result line.old line.new
        (read_out (session_of session) received.now (currentOf (last_figures session.figures))) }
{
    let Some(laid) = known.current else {
        return stop(session, line);
    };
    let table = session.table;
    let len = read_laid(table, laid, known.twice, received, line);
    counted(session, len)
}

// The same by the last accepted figures and their layout.
fn read_laid(
    table: JobTable,
    laid: LaidFigures,
    twice: bool,
    received: &[u8],
    line: &mut [u8],
) -> usize
    requires { RecordLaid (entries table) line.old laid.figures laid.layout twice record_head_len received.now }
    ensures { Put result line.old line.new (λ s. read_step s (job_read_under (coding_of laid.figures) (entries table)
        (drop record_head_len received.now) (replicate (payload_len_of laid.figures) 0))) }
{
    let layout = laid.layout;
    let count = bytes::payload_len(layout.q, layout.message_len);
    if count <= SHORT_WORD {
        return read_in::<SHORT_WORD>(table, layout, twice, count, &received[HEAD_LEN..], line);
    }
    read_in::<MAX_WORD>(table, layout, twice, count, &received[HEAD_LEN..], line)
}

// R, with a payload of so many bytes in an array that has room for it.
fn read_in<const ROOM: usize>(
    table: JobTable,
    layout: WordLayout,
    twice: bool,
    count: usize,
    word: &[u8],
    line: &mut [u8],
) -> usize
    requires { (max_line ≤ length line.old) × (count ≤ ROOM) × (ROOM ≤ max_word) × ServesTold layout twice (entries table) }
    ensures { Put result line.old line.new
        (λ s. read_step s (job_read_under (coding_in layout) (entries table) word.now (replicate count 0))) }
{
    let mut payload = [0u8; ROOM];
    read_payload(table, layout, twice, word, &mut payload[..count], line)
}

// R, with a lent payload that holds 0.
fn read_payload(
    table: JobTable,
    layout: WordLayout,
    twice: bool,
    word: &[u8],
    payload: &mut [u8],
    line: &mut [u8],
) -> usize
    requires { (max_line ≤ length line.old) × (length payload.old ≤ max_word) × ServesTold layout twice (entries table) }
    ensures { Put result line.old line.new
        (λ s. read_step s (job_read_under (coding_in layout) (entries table) word.now payload.old)) }
{
    match job_read(layout, twice, table, word, payload) {
        Err(refusal) => lines::put_refusal(line, b'R', u8::from(refusal)),
        Ok(()) => lines::put_payload(line, payload),
    }
}

// Job read likewise.
fn job_read(
    layout: WordLayout,
    twice: bool,
    table: JobTable,
    word: &[u8],
    payload: &mut [u8],
) -> Result<(), Refusal>
    requires { ServesTold layout twice (entries table) }
    ensures { seen (answer_of result) payload.new ≡ job_read_under (coding_in layout) (entries table) word.now payload.old }
{
    if twice {
        return Err(Refusal::Invalid);
    }
    jobcodec::read_laid(layout, table, word, payload)
}
