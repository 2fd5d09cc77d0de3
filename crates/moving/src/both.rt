// The layouts of two codes, and the tests that moving begins with. Assumes nothing.
ghost use Rattle.std.specs.Prelude.{◌≡◌};
ghost use Rattle.refusals.specs.Numbers.{number_of};
ghost use Rattle.codes.specs.Answer.{figured_as};
ghost use Rattle.codes.specs.Bridge.{coding_of};
ghost use Rattle.codes.specs.Given.{coding_in, Serves};
ghost use Rattle.moving.specs.Move.{same_figures};
ghost use Rattle.moving.specs.Both.{first_refusal, BothIn};

use codes::{Figures, WordLayout};
use params::bytes;
use refusals::Refusal;

// The layouts that the figures give, that of the strip that is read first, for two lent strips of so many symbols. Refusals in order: 1 if either code's figures are out of range, 2 if they differ
// or either code doesn't fit, 10 if either payload has too few bytes, 3.
pub fn both_fit(
    from: Figures,
    to: Figures,
    strip: usize,
    moved: usize,
) -> Result<(WordLayout, WordLayout), Refusal>
    ensures { BothIn (coding_of from) (coding_of to) strip moved result }
{
    let other = to.layout();
    match from.layout() {
        Err(refusal) => Err(first_refusal(refusal, other)),
        Ok(source) => both_carry(source, other?, strip, moved),
    }
}

// What two codes are refused with where one is refused so: 1 comes before 2.
fn first_refusal(first: Refusal, other: Result<WordLayout, Refusal>) -> Refusal
    ensures { number_of result ≡ first_refusal (number_of first) (figured_as other) }
{
    match other {
        Ok(_) => first,
        Err(second) => {
            if u8::from(second) < u8::from(first) {
                return second;
            }
            first
        }
    }
}

// The same as `both_fit` where both codes fit. Refusals: 2 10 3.
fn both_carry(
    source: WordLayout,
    target: WordLayout,
    strip: usize,
    moved: usize,
) -> Result<(WordLayout, WordLayout), Refusal>
    requires { Serves source × Serves target }
    ensures { BothIn (coding_in source) (coding_in target) strip moved result }
{
    if !same_figures(source, target) {
        return Err(Refusal::Unfit);
    }
    if bytes::payload_len(source.q, source.message_len) < jobcodec::MIN_PAYLOAD {
        return Err(Refusal::Payload);
    }
    if bytes::payload_len(target.q, target.message_len) < jobcodec::MIN_PAYLOAD {
        return Err(Refusal::Payload);
    }
    if strip != source.n {
        return Err(Refusal::Length);
    }
    if moved != target.n {
        return Err(Refusal::Length);
    }
    Ok((source, target))
}

// Whether two layouts are of the same n, q, m and b.
fn same_figures(source: WordLayout, target: WordLayout) -> bool
    requires { Serves source × Serves target }
    ensures { result ≡ same_figures (coding_in source) (coding_in target) }
{
    source.n == target.n && source.q == target.q && source.m == target.m && source.b == target.b
}
