// The transfer program between two system calls: what is kept, what is wanted of the system next, and what its answers change. Nothing here reads or
// writes. Assumes nothing.
#![tactic(auto)]

ghost use Rattle.std.specs.Prelude.{◌≡◌, cond, ◌+◌, ◌-◌, ◌≤◌, min, length, take, drop};
ghost use Rattle.turns.specs.declared.Phase.TheVariants.{Failed};
ghost use Rattle.turns.specs.View.{buffer_len, wants_at, room_at, ready_at, advance_out};
ghost use Rattle.turns.specs.State.{Buffers, WithinBuffers, view_of, waiting_in, Begun, WaitsInFront, Fronted, Moved, repeated, in_phase, is_repeated};
ghost use Rattle.turns.specs.State.{after_read, after_write};

use records::Session;

mod steps;

const BUFFER_LEN: usize = 65536;

// More interrupted reads than a program meets are made again, but not without end: its loop has to end.
const MAX_REPEATS: u64 = u64::MAX;

// The system's number for a call that a signal interrupted.
const EINTR: i32 = 4;

// What the program wants of the system: more input, all that is gathered written, or nothing any more.
#[derive(Clone, Copy, Debug, PartialEq, Eq)]
pub enum Wants {
    Read,
    Write,
    Stop,
}

// How the input stands: it goes on, has ended, or a read failed; or the last line is gathered, and no more of it is looked at.
#[derive(Clone, Copy, Debug, PartialEq, Eq)]
pub enum Phase {
    Open,
    Ended,
    Failed,
    Done,
}

// What is kept. Of the input buffer the bytes from `from` to `to` are not served yet; of the output buffer the first `gathered` bytes are not written yet.
// So many interrupted reads may still be made again.
#[derive(Clone, Copy)]
pub struct State {
    pub session: Session,
    pub from: usize,
    pub to: usize,
    pub gathered: usize,
    pub phase: Phase,
    pub repeats: u64,
}

// Serves what can be served, until the system has to do something.
pub fn advance(
    state: State,
    input: &mut [u8],
    output: &mut [u8],
    line: &mut [u8; Session::MAX_LINE],
) -> State
    requires { Buffers input.old output.old × WithinBuffers state }
    ensures view { view_of result input.new output.new ≡ advance_out (view_of state input.old output.old) }
    ensures within { WithinBuffers result }
    ensures room { WaitsInFront result }
    ensures repeats { result.repeats ≡ state.repeats }
{
    let served = steps::serve_on(state, input, output, line);
    served.fronted(input)
}

impl State {
    // Nothing read, served or printed.
    pub fn start() -> Self
        ensures { Begun result }
    {
        State {
            session: Session::start(),
            from: 0,
            to: 0,
            gathered: 0,
            phase: Phase::Open,
            repeats: MAX_REPEATS,
        }
    }

    // Before a read, which may wait, every answer is written: whoever sends the records may want it first.
    pub fn wants(self) -> Wants
        ensures { result ≡ wants_at self.gathered self.phase }
    {
        if self.gathered != 0 {
            return Wants::Write;
        }
        match self.phase {
            Phase::Done => Wants::Stop,
            Phase::Open | Phase::Ended | Phase::Failed => Wants::Read,
        }
    }

    // What a read of the input behind `to` answered: so many bytes, none at the end of input, less than none where it failed, and then by which error.
    pub fn after_read(self, got: isize, error: i32) -> State
        requires { (self.to ≤ buffer_len) × Moved (buffer_len - self.to) got }
        ensures { result ≡ after_read self got error }
    {
        if got < 0 {
            return self.after_failed(error);
        }
        if got > 0 {
            return State {
                to: self.to + got as usize,
                ..self
            };
        }
        self.in_phase(Phase::Ended)
    }

    // Whether what was gathered is written; where it is not, nobody is left to read an answer.
    pub fn after_write(self, is_written: bool) -> State
        ensures { result ≡ after_write self is_written }
    {
        if is_written {
            return State {
                gathered: 0,
                ..self
            };
        }
        State {
            gathered: 0,
            phase: Phase::Done,
            ..self
        }
    }

    // A read that a signal interrupted is made again; any other that fails is the last.
    fn after_failed(self, error: i32) -> State
        ensures { result ≡ cond (is_repeated self error) (repeated self) (in_phase self Failed) }
    {
        if !self.is_repeated(error) {
            return self.in_phase(Phase::Failed);
        }
        State {
            repeats: self.repeats - 1,
            ..self
        }
    }

    // The error is that of a call that a signal interrupted, and repeats are left.
    fn is_repeated(self, error: i32) -> bool
        ensures { result ≡ is_repeated self error }
    {
        if self.repeats == 0 {
            return false;
        }
        error == EINTR
    }

    fn in_phase(self, phase: Phase) -> State
        ensures { result ≡ in_phase self phase }
    {
        State { phase, ..self }
    }

    // Any line has room behind what is gathered.
    fn has_room(self) -> bool
        requires { WithinBuffers self }
        ensures { result ≡ room_at self.gathered }
    {
        self.gathered <= BUFFER_LEN - Session::MAX_LINE
    }

    // The next record is there as a whole, or no more of it will come.
    fn is_ready(self, needed: usize) -> bool
        requires { WithinBuffers self }
        ensures { result ≡ ready_at self.phase needed (self.to - self.from) }
    {
        match self.phase {
            Phase::Open => needed <= self.to - self.from,
            Phase::Ended | Phase::Failed => true,
            Phase::Done => false,
        }
    }

    // Where a read is wanted, what waits is moved to the front, so that the read has the room behind it.
    fn fronted(self, input: &mut [u8]) -> State
        requires { (length input.old ≡ buffer_len) × WithinBuffers self }
        ensures waits { waiting_in result input.new ≡ waiting_in self input.old }
        ensures same { Fronted self result }
    {
        match self.wants() {
            Wants::Read => {
                input.copy_within(self.from..self.to, 0);
                State {
                    from: 0,
                    to: self.to - self.from,
                    ..self
                }
            }
            Wants::Write | Wants::Stop => self,
        }
    }
}
