// The check of a word for programs in other languages, under the figures of any code, with starts as bytes. Inner functions. Assumes nothing.
ghost use Rattle.std.specs.Prelude.{◌≡◌};
ghost use Rattle.codes.specs.Bridge.{coding_of};
ghost use Rattle.verifier.specs.Answer.{verdict_as};
ghost use Rattle.lent.specs.Check.{verify_bytes_under, verdict_number};

use codes::Figures;
use placements::starts::placement_at;
use refusals::Refusal;

// What the check answers for "no".
const DIFFERS: u8 = 255;

// Whether a word agrees outside the bursts with the one that a placement and a message give: 0 where it does, DIFFERS where it doesn't. Refusals: 1 2 3 5 4.
pub fn verify(figures: Figures, starts: &[u8], message: &[u8], word: &[u8]) -> u8
    ensures { result ≡ verdict_number (verify_bytes_under (coding_of figures) starts.now message.now word.now) }
{
    match try_verify(figures, starts, message, word) {
        Ok(true) => Refusal::NONE,
        Ok(false) => DIFFERS,
        Err(refusal) => u8::from(refusal),
    }
}

// The same as a Result.
fn try_verify(figures: Figures, starts: &[u8], message: &[u8], word: &[u8]) -> Result<bool, Refusal>
    ensures { verdict_as result ≡ verify_bytes_under (coding_of figures) starts.now message.now word.now }
{
    let layout = figures.layout()?;
    if starts.len() != 2 * layout.m {
        return Err(Refusal::Length);
    }
    let at = placement_at(starts, 0, layout.m);
    verifier::verify_fitting(layout, at, message, word)
}
