// The check of a word against the placement and the message that it should hold (document 02, "Strips from the frame maker"). Assumes nothing.
#![tactic(auto)]

ghost use Rattle.std.specs.Prelude.{◌≡◌};
ghost use Rattle.placements.specs.Bridge.{held_as};
ghost use Rattle.codes.specs.Bridge.{coding_of};
ghost use Rattle.codes.specs.Given.{coding_in, Serves};
ghost use Rattle.verifier.specs.Answer.{verdict_as};
ghost use Rattle.verifier.specs.Given.{ExpectedWord};
ghost use Rattle.verifier.specs.Verify.{verify_under};

use codes::{Figures, WordLayout};
use params::Params;
use params::found::found_bound;
use placements::Placement;
use placements::bursts::cover_differences;
use refusals::Refusal;

// The check of a found word of n symbols: whether it agrees outside the bursts with the one that would be written. What the cells inside the bursts hold makes no difference. Refusals: 1 2 3 5 4.
pub fn verify(figures: Figures, at: Placement, message: &[u8], word: &[u8]) -> Result<bool, Refusal>
    ensures { verdict_as result ≡ verify_under (coding_of figures) (held_as at) message.now word.now }
{
    verify_fitting(figures.layout()?, at, message, word)
}

// The same for figures that fit. Refusals: 3 5 4. The word that would be written stands in a local array.
pub fn verify_fitting(
    layout: WordLayout,
    at: Placement,
    message: &[u8],
    word: &[u8],
) -> Result<bool, Refusal>
    requires { Serves layout }
    ensures { verdict_as result ≡ verify_under (coding_in layout) (held_as at) message.now word.now }
{
    let n = layout.n;
    if word.len() != n {
        return Err(Refusal::Length);
    }
    let mut expected = [0u8; Params::MAX_WORD as usize];
    verify_against(layout, at, message, word, &mut expected[..n])
}

// The same for a word of n symbols, and room for as many. Refusals: 3 5 4.
fn verify_against(
    layout: WordLayout,
    at: Placement,
    message: &[u8],
    word: &[u8],
    expected: &mut [u8],
) -> Result<bool, Refusal>
    requires { ExpectedWord layout word.now expected.old }
    ensures { verdict_as result ≡ verify_under (coding_in layout) (held_as at) message.now word.now }
{
    codes::encode_fitting(layout, at, message, expected)?;
    if !symbols::all_below(word, found_bound(layout.q)) {
        return Err(Refusal::Symbol);
    }
    Ok(cover_differences(at, layout.b as u32, word, expected))
}
