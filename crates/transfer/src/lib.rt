// The transfer program, record by record: the step of one record, which makes a session of a session and prints a line. Assumes nothing.
#![tactic(auto)]

ghost use Rattle.std.specs.Prelude.{◌≡◌, true, false, ◌+◌, ◌≤◌, ◌<◌, length};
ghost use Rattle.cells.specs.Outcomes.{figures_under};
ghost use Rattle.jobs.specs.Letters.{kind_of, call_by};
ghost use Rattle.jobs.specs.Slots.{entries};
ghost use Rattle.codes.specs.Bridge.{coding_of};
ghost use Rattle.text.specs.Text.{overwrite};
ghost use Rattle.records.specs.Session.{max_records, next_session as afterRecord};
ghost use Rattle.lines.specs.Lines.{stop_line, max_line};
ghost use Rattle.records.specs.Records.{record_len, letter_of};
ghost use Rattle.transfer.specs.Steps.{serve_out, step_out, stopped, ended, figures_step, call_step};
ghost use Rattle.records.specs.Bridge.{last_figures, session_of, Knows};
ghost use Rattle.transfer.specs.Bridge.{Ready, Shown, Whole};

use codes::Figures;
use jobs::JobTable;
use params::Params;
use records::{HEAD_LEN, Known, Session};

mod job_records;

const MAX_WORD: usize = Params::MAX_WORD as usize;

const SHORT_WORD: usize = Params::SHORT_WORD as usize;

// What a step answers: the session afterwards, how many bytes of the lent line are printed, and whether the program ends.
#[derive(Clone, Copy)]
pub struct StepAnswer {
    pub next: Session,
    pub len: usize,
    pub stops: bool,
}

// One record, whatever bytes it has, and none at all at the end of input: its line is put into the lent line, from the start on.
pub fn step(session: Session, received: &[u8], line: &mut [u8; Session::MAX_LINE]) -> StepAnswer
    ensures next { session_of result.next ≡ (step_out (session_of session) received.now).next }
    ensures line { line.new ≡ overwrite 0 (step_out (session_of session) received.now).line line.old }
    ensures len { result.len ≡ length (step_out (session_of session) received.now).line }
    ensures stops { result.stops ≡ (step_out (session_of session) received.now).stops }
{
    step_on(session, Known::of(session), received, line)
}

// What can't be read at all, where a read failed: prints "stop 11" and ends.
pub fn unreadable(session: Session, line: &mut [u8; Session::MAX_LINE]) -> StepAnswer
    ensures next { session_of result.next ≡ session_of session }
    ensures line { line.new ≡ overwrite 0 stop_line line.old }
    ensures len { result.len ≡ length stop_line }
    ensures stops { result.stops ≡ true }
{
    stop(session, line)
}

// The step where it is known what there is to know of the session, and with a line that has room for any.
pub fn step_on(session: Session, known: Known, received: &[u8], line: &mut [u8]) -> StepAnswer
    requires { (max_line ≤ length line.old) × Knows (session_of session) known }
    ensures { Shown result line.old line.new (step_out (session_of session) received.now) }
{
    if received.len() == 0 {
        return end(session, line);
    }
    if Session::MAX_RECORDS <= session.records {
        return stop(session, line);
    }
    let current = known.current;
    if !records::is_readable_by(session, current, received) {
        return stop(session, line);
    }
    serve(session, known, received, line)
}

// A record that can be read, by its letter.
fn serve(session: Session, known: Known, received: &[u8], line: &mut [u8]) -> StepAnswer
    requires { Whole session known line.old received.now (record_len (session_of session) (letter_of received.now)) }
    ensures { Shown result line.old line.new
        (serve_out (session_of session) (letter_of received.now) received.now) }
{
    let letter = received[2];
    match letter {
        b'S' => serve_figures(session, letter, records::figures_in(received), line),
        b'L' => serve_figures(session, letter, records::long_figures_in(received), line),
        b'W' => job_records::serve_write(session, known, received, line),
        b'R' => job_records::serve_read(session, known, received, line),
        _ => {
            let number = payloads::job_number(&received[HEAD_LEN..]);
            serve_call(session, letter, number, line)
        }
    }
}

// Prints "stop 11" and ends.
fn stop(session: Session, line: &mut [u8]) -> StepAnswer
    requires { max_line ≤ length line.old }
    ensures { Shown result line.old line.new (stopped (session_of session)) }
{
    StepAnswer {
        next: session,
        len: lines::put_stop(line),
        stops: true,
    }
}

// The end of input prints "end".
fn end(session: Session, line: &mut [u8]) -> StepAnswer
    requires { max_line ≤ length line.old }
    ensures { Shown result line.old line.new (ended (session_of session)) }
{
    StepAnswer {
        next: session,
        len: lines::put_end(line),
        stops: true,
    }
}

// S and L: a refused one keeps the former figures, and the table outlasts it.
fn serve_figures(session: Session, letter: u8, figures: Figures, line: &mut [u8]) -> StepAnswer
    requires { Ready session line.old }
    ensures { Shown result line.old line.new (figures_step (session_of session) letter figures (figures_under (coding_of figures))) }
{
    match figures.layout() {
        Err(refusal) => {
            let len = lines::put_refusal(line, letter, u8::from(refusal));
            counted(session, len)
        }
        Ok(layout) => {
            let len = lines::put_figures(
                line,
                letter,
                layout.placement_count(),
                layout.index_tail() as u64,
                layout.message_len as u64,
            );
            let table = session.table;
            after(session, Some(figures), table, len)
        }
    }
}

// O, C, F: the call's answer, and the table that it hands back.
fn serve_call(session: Session, letter: u8, number: u32, line: &mut [u8]) -> StepAnswer
    requires { Ready session line.old }
    ensures { Shown result line.old line.new
        (call_step (session_of session) letter (call_by (kind_of letter) (entries session.table) number)) }
{
    let table = session.table;
    let out = table.call(letter, number);
    let len = lines::put_refusal(line, letter, refusals::answer(out.answer));
    let figures = session.figures;
    let next = out.table;
    after(session, figures, next, len)
}

// The session after one record more, with these figures and this table.
fn after(session: Session, figures: Option<Figures>, table: JobTable, len: usize) -> StepAnswer
    requires { session.records < max_records }
    ensures next { session_of result.next ≡ afterRecord (session_of session) (last_figures figures) (entries table) }
    ensures len { result.len ≡ len }
    ensures stops { result.stops ≡ false }
{
    StepAnswer {
        next: Session {
            figures,
            table,
            records: session.records + 1,
        },
        len,
        stops: false,
    }
}

// The same with the figures and the table as they were.
fn counted(session: Session, len: usize) -> StepAnswer
    requires { session.records < max_records }
    ensures next { session_of result.next ≡ afterRecord (session_of session) (last_figures session.figures) (entries session.table) }
    ensures len { result.len ≡ len }
    ensures stops { result.stops ≡ false }
{
    let figures = session.figures;
    let table = session.table;
    after(session, figures, table, len)
}
