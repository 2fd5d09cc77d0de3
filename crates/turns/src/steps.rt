// Records that are served from the input buffer into the output buffer, as far as both go. Assumes nothing.
ghost use Rattle.std.specs.Prelude.{◌≡◌, ◌+◌, ◌-◌, ◌≤◌, length, take};
ghost use Rattle.text.specs.Text.{overwrite};
ghost use Rattle.records.specs.Bridge.{session_of, Knows};
ghost use Rattle.transfer.specs.Bridge.{Shown};
ghost use Rattle.records.specs.Records.{needed_for};
ghost use Rattle.turns.specs.View.{step_at, phase_after, served_out, advance_out};
ghost use Rattle.turns.specs.State.{Buffers, WithinBuffers, Roomy, view_of, waiting_in};

use crate::{Phase, State};
use records::{Known, Session};
use transfer::StepAnswer;

// Record by record, while one is ready and its line has room. What is to know of the session is found before the first and kept from one to the next.
pub fn serve_on(
    state: State,
    input: &[u8],
    output: &mut [u8],
    line: &mut [u8; Session::MAX_LINE],
) -> State
    requires { Buffers input.now output.old × WithinBuffers state }
    ensures view { view_of result input.now output.new ≡ advance_out (view_of state input.now output.old) }
    ensures within { WithinBuffers result }
    ensures repeats { result.repeats ≡ state.repeats }
{
    let mut now = state;
    let mut known = Known::of(state.session);
    while now.has_room() {
        let waiting = &input[now.from..now.to];
        let needed = records::needed_by(now.session, known.current, waiting);
        if !now.is_ready(needed) {
            return now;
        }
        let letter = records::letter_in(waiting);
        now = serve(now, known, needed, input, output, line);
        known = known.after(letter, now.session);
    }
    now
}

// Serves the next record, or what there is of it where no more will come: its line is put behind what is gathered.
fn serve(
    state: State,
    known: Known,
    needed: usize,
    input: &[u8],
    output: &mut [u8],
    line: &mut [u8; Session::MAX_LINE],
) -> State
    requires { Buffers input.now output.old × Roomy state × (needed ≡ needed_for (session_of state.session) (waiting_in state input.now))
        × Knows (session_of state.session) known }
    ensures view { view_of result input.now output.new ≡ served_out (view_of state input.now output.old) }
    ensures within { WithinBuffers result }
    ensures repeats { result.repeats ≡ state.repeats }
{
    let from = state.from;
    let phase = state.phase;
    let end = from + needed.min(state.to - from);
    let answer = step_at(phase, state.session, known, &input[from..end], line);
    let gathered = put_first(output, state.gathered, line, answer.len);
    State {
        session: answer.next,
        from: end,
        gathered,
        phase: phase_after(phase, answer.stops),
        ..state
    }
}

// The step of these bytes; where a read failed, that of what can't be read.
fn step_at(
    phase: Phase,
    session: Session,
    known: Known,
    received: &[u8],
    line: &mut [u8; Session::MAX_LINE],
) -> StepAnswer
    requires { Knows (session_of session) known }
    ensures { Shown result line.old line.new (step_at phase (session_of session) received.now) }
{
    match phase {
        Phase::Failed => transfer::unreadable(session, line),
        Phase::Open | Phase::Ended | Phase::Done => {
            transfer::step_on(session, known, received, line)
        }
    }
}

// A step that stops is the last.
fn phase_after(phase: Phase, stops: bool) -> Phase
    ensures { result ≡ phase_after phase stops }
{
    if stops {
        return Phase::Done;
    }
    phase
}

// Puts the first bytes of a line behind what is gathered.
fn put_first(output: &mut [u8], at: usize, line: &[u8], len: usize) -> usize
    requires { (len ≤ length line.now) × (at + len ≤ length output.old) }
    ensures output { output.new ≡ overwrite at (take len line.now) output.old }
    ensures behind { result ≡ at + len }
{
    text::put_text(output, at, &line[..len])
}
