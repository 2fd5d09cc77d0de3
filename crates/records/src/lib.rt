// The records that the transfer program takes: what is kept between them, how long each is, and what its bytes say. Assumes nothing.
#![tactic(auto)]

ghost use Rattle.std.specs.Prelude.{◌≡◌, ◌+◌, ◌*◌, ◌≤◌, ◌<◌, length};
ghost use Rattle.std.proofs.Math.Option.{some};
ghost use Rattle.combinatorics.specs.Stretch.{tabulate};
ghost use Rattle.cells.specs.Outcomes.{held};
ghost use Rattle.placements.specs.Bridge.{held_as};
ghost use Rattle.records.specs.Session.{at_start, max_records};
ghost use Rattle.lines.specs.Lines.{max_line};
ghost use Rattle.records.specs.Records.{record_head_len, two_bytes, write_len, read_len, record_len, max_record, readable, current as currentOf, figures_in};
ghost use Rattle.records.specs.Records.{long_figures_in, letter_of, begun_len, needed_for};
ghost use Rattle.records.specs.Bridge.{last_figures, session_of, Current, Knows, StillKnown, length_as, HasStarts};

use codes::{Figures, WordLayout};
use jobs::JobTable;
use params::long::LongParams;
use params::{Params, bytes};
use placements::{Placement, starts};
use symbols::numbers;
use symbols::numbers::NUMBER_BYTES;

// The figures of the last accepted S or L with their layout.
#[derive(Clone, Copy)]
pub struct LaidFigures {
    pub figures: Figures,
    pub layout: WordLayout,
}

// What is known of a session's figures and table, so that many records need not find it anew: the last accepted figures with their layout, and
// whether the table holds a number twice.
#[derive(Clone, Copy)]
pub struct Known {
    pub current: Option<LaidFigures>,
    pub twice: bool,
}

// What is kept between two records: the figures of the last accepted S or L, job table, and how many records were served.
#[derive(Clone, Copy)]
pub struct Session {
    pub figures: Option<Figures>,
    pub table: JobTable,
    pub records: u32,
}

// Mark and letter: what is read of a record before its length is known.
pub const HEAD_LEN: usize = 3;

const FIGURES_LEN: usize = 6;

const LONG_FIGURES_LEN: usize = 5;

const MAX_WORD: usize = Params::MAX_WORD as usize;

impl Known {
    // What is known of a session.
    pub fn of(session: Session) -> Self
        ensures { Knows (session_of session) result }
    {
        Known {
            current: current(session.figures),
            twice: session.table.twice(),
        }
    }

    // The same of the session after a record with this letter: only S and L may change the figures, and no record puts a number in twice.
    pub fn after(self, letter: u8, next: Session) -> Self
        requires { StillKnown (session_of next) letter self }
        ensures { Knows (session_of next) result }
    {
        match letter {
            b'S' | b'L' => Known {
                current: current(next.figures),
                twice: self.twice,
            },
            _ => self,
        }
    }
}

impl Session {
    // "any record after the 4294967295th" is refused.
    pub const MAX_RECORDS: u32 = 4294967295;

    // Room for the longest line.
    pub const MAX_LINE: usize = 2 * MAX_WORD + 6;

    // Room for the longest record.
    pub const MAX_RECORD: usize = HEAD_LEN + 2 * Placement::MAX + MAX_WORD;

    // The session before the first record.
    pub fn start() -> Self
        ensures session { session_of result ≡ at_start }
        ensures records { Session.MAX_RECORDS ≡ max_records }
        ensures longest { Session.MAX_RECORD ≡ max_record }
        ensures room { Session.MAX_LINE ≡ max_line }
    {
        Session {
            figures: None,
            table: JobTable::empty(),
            records: 0,
        }
    }
}

// How many bytes a record with this letter has, mark and letter included; none for an unknown letter and for W or R before an accepted S or L.
fn record_len(session: Session, current: Option<LaidFigures>, letter: u8) -> Option<usize>
    requires { Current (last_figures session.figures) current }
    ensures { length_as result ≡ record_len (session_of session) letter }
{
    match letter {
        b'S' => Some(HEAD_LEN + FIGURES_LEN),
        b'L' => Some(HEAD_LEN + LONG_FIGURES_LEN),
        b'O' => Some(HEAD_LEN + NUMBER_BYTES),
        b'C' => Some(HEAD_LEN + NUMBER_BYTES),
        b'F' => Some(HEAD_LEN + NUMBER_BYTES),
        b'W' => write_len(session.figures, current),
        b'R' => read_len(session.figures, current),
        _ => None,
    }
}

// m starts and K bytes.
fn write_len(figures: Option<Figures>, current: Option<LaidFigures>) -> Option<usize>
    requires { Current (last_figures figures) current }
    ensures { length_as result ≡ write_len (currentOf (last_figures figures)) }
{
    let layout = current?.layout;
    Some(HEAD_LEN + 2 * layout.m + bytes::payload_len(layout.q, layout.message_len))
}

// n bytes.
fn read_len(figures: Option<Figures>, current: Option<LaidFigures>) -> Option<usize>
    requires { Current (last_figures figures) current }
    ensures { length_as result ≡ read_len (currentOf (last_figures figures)) }
{
    Some(HEAD_LEN + current?.layout.n)
}

// The last accepted figures and their layout.
pub fn current(figures: Option<Figures>) -> Option<LaidFigures>
    ensures { Current (last_figures figures) result }
{
    match figures {
        None => None,
        Some(given) => laid(given),
    }
}

// The same of figures that were accepted.
fn laid(figures: Figures) -> Option<LaidFigures>
    ensures { Current (some figures) result }
{
    match figures.layout() {
        Err(_) => None,
        Ok(layout) => Some(LaidFigures { figures, layout }),
    }
}

// How many bytes the next record takes, by those that are there: mark and letter until they are there, and also where no record begins with them.
pub fn needed(session: Session, waiting: &[u8]) -> usize
    ensures bytes { result ≡ needed_for (session_of session) waiting.now }
    ensures most { result ≤ max_record }
{
    needed_by(session, current(session.figures), waiting)
}

// The same, with the last accepted figures already laid out.
pub fn needed_by(session: Session, current: Option<LaidFigures>, waiting: &[u8]) -> usize
    requires { Current (last_figures session.figures) current }
    ensures bytes { result ≡ needed_for (session_of session) waiting.now }
    ensures most { result ≤ max_record }
{
    begun_len(session, current, waiting).unwrap_or(HEAD_LEN)
}

// Whether a record has the mark, a known letter, and its letter's length.
pub fn is_readable(session: Session, received: &[u8]) -> bool
    ensures { result ≡ readable (session_of session) received.now }
{
    is_readable_by(session, current(session.figures), received)
}

// The same, with the last accepted figures already laid out.
pub fn is_readable_by(session: Session, current: Option<LaidFigures>, received: &[u8]) -> bool
    requires { Current (last_figures session.figures) current }
    ensures { result ≡ readable (session_of session) received.now }
{
    match begun_len(session, current, received) {
        Some(len) => received.len() == len,
        None => false,
    }
}

// How many bytes the record has that begins with these; none where mark and letter are not there yet, and where no record begins with them.
fn begun_len(session: Session, current: Option<LaidFigures>, received: &[u8]) -> Option<usize>
    requires { Current (last_figures session.figures) current }
    ensures { length_as result ≡ begun_len (session_of session) received.now }
{
    if received.len() < HEAD_LEN {
        return None;
    }
    if received[0] != b'L' {
        return None;
    }
    if received[1] != b'T' {
        return None;
    }
    record_len(session, current, received[2])
}

// The letter of the record that begins with these bytes; 0 where it is not there yet.
pub fn letter_in(waiting: &[u8]) -> u8
    ensures { result ≡ letter_of waiting.now }
{
    if waiting.len() < HEAD_LEN {
        return 0;
    }
    waiting[2]
}

// The figures of an S record.
pub fn figures_in(received: &[u8]) -> Figures
    requires { length received.now ≡ record_head_len + 6 }
    ensures { result ≡ figures_in received.now }
{
    Figures::Ranked(Params {
        n: numbers::two_bytes(received, 3) as u32,
        q: received[5] as u32 + 1,
        m: received[6] as u32,
        b: numbers::two_bytes(received, 7) as u32,
    })
}

// The figures of an L record.
pub fn long_figures_in(received: &[u8]) -> Figures
    requires { length received.now ≡ record_head_len + 5 }
    ensures { result ≡ long_figures_in received.now }
{
    Figures::Long(LongParams {
        n: numbers::two_bytes(received, 3) as u32,
        q: received[5] as u32 + 1,
        b: numbers::two_bytes(received, 6) as u32,
    })
}

// The placement whose starts stand in a W record.
pub fn placement_in(received: &[u8], m: usize) -> Placement
    requires { HasStarts m received.now }
    ensures { held_as result ≡ held (tabulate m 0 (λ i. two_bytes received.now (record_head_len + 2 * i))) }
{
    starts::placement_at(received, HEAD_LEN, m)
}
