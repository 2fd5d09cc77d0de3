// The transfer program: does what `turns` wants of the system, until it wants nothing more. Of what a read gives it assumes no more than its length.
#![tactic(auto)]

ghost use Rattle.std.specs.Prelude.{◌≡◌, length};
ghost use Rattle.turns.specs.View.{buffer_len};
ghost use Rattle.turns.specs.State.{Buffers};
ghost use Rattle.burgzemi.specs.Finished.{Finished};
ghost use Rattle.burgzemi.specs.Served.{Served};

use records::Session;
use std::io::{Read, Write};
use turns::{State, Wants};

fn main(rt: HostRuntime) {
    let mut input = buffer();
    let mut output = buffer();
    let mut line = [0u8; Session::MAX_LINE];
    run(
        &mut rt.stdin(),
        &mut rt.stdout(),
        &mut input,
        &mut output,
        &mut line,
    );
}

fn buffer() -> [u8; 65536]
    ensures { length result ≡ buffer_len }
{
    [0; 65536]
}

// Answers the state in which it stops. What it read and wrote is as the contract says where the reader and the writer say which bytes they have; those of the
// system do not (docs/PROMISES.md).
fn run<R: Read, W: Write>(
    reader: &mut R,
    writer: &mut W,
    input: &mut [u8],
    output: &mut [u8],
    line: &mut [u8; Session::MAX_LINE],
) -> State
    requires { Buffers input.old output.old }
    ensures finished { Finished result input.new output.new }
    ensures served { Served result input.new output.new (R.remaining reader.old) (R.remaining reader.new) (W.contents writer.old) (W.contents writer.new) }
{
    let mut state = State::start();
    loop {
        let wants = state.wants();
        match wants {
            Wants::Stop => return state,
            Wants::Read => {
                let to = state.to;
                let answer = reader.read(&mut input[to..]);
                state = match answer {
                    Ok(got) => state.after_read(got as isize, 0),
                    Err(error) => state.after_read(-1, error.raw_os_error().unwrap_or(0)),
                };
            }
            Wants::Write => {
                let gathered = state.gathered;
                let answer = writer.write_all(&output[..gathered]);
                state = state.after_write(answer.is_ok());
            }
        }
        state = turns::advance(state, input, output, line);
    }
}
