// Words for programs in other languages, under the figures of any code: written and read with starts as bytes. Inner functions. Assumes nothing.
ghost use Rattle.std.specs.Prelude.{◌≡◌};
ghost use Rattle.refusals.specs.Numbers.{answer_of};
ghost use Rattle.cells.specs.Outcomes.{unwritten};
ghost use Rattle.codes.specs.Bridge.{coding_of};
ghost use Rattle.decoder.specs.Exported.{lent_as, exported_under};
ghost use Rattle.lent.specs.Words.{encode_bytes_under};

use codes::Figures;
use decoder::starts::put_decoded;
use placements::starts::placement_at;
use refusals::Refusal;

// Word write with the starts as bytes. Refusals: 1 2 3 5 4.
pub fn encode(figures: Figures, starts: &[u8], message: &[u8], word: &mut [u8]) -> u8
    ensures { unwritten word.new result ≡ encode_bytes_under (coding_of figures) starts.now message.now word.old }
{
    refusals::answer(try_encode(figures, starts, message, word))
}

// The same as a Result.
fn try_encode(
    figures: Figures,
    starts: &[u8],
    message: &[u8],
    word: &mut [u8],
) -> Result<(), Refusal>
    ensures { unwritten word.new (answer_of result) ≡ encode_bytes_under (coding_of figures) starts.now message.now word.old }
{
    let layout = figures.layout()?;
    if starts.len() != 2 * layout.m {
        return Err(Refusal::Length);
    }
    let at = placement_at(starts, 0, layout.m);
    codes::encode_fitting(layout, at, message, word)
}

// Word read with the starts as bytes. Refusals: 1 2 3 4 7 19 8 9 19, by the Larsson code 1 2 3 4 21 8 9 19.
pub fn decode(figures: Figures, word: &[u8], message: &mut [u8], starts: &mut [u8]) -> u8
    ensures { lent_as result message.new starts.new
        ≡ exported_under (coding_of figures) word.now message.old starts.old }
{
    refusals::answer(try_decode(figures, word, message, starts))
}

// The same as a Result.
fn try_decode(
    figures: Figures,
    word: &[u8],
    message: &mut [u8],
    found: &mut [u8],
) -> Result<(), Refusal>
    ensures { lent_as (answer_of result) message.new found.new
        ≡ exported_under (coding_of figures) word.now message.old found.old }
{
    let layout = figures.layout()?;
    if found.len() != 2 * layout.m {
        return Err(Refusal::Length);
    }
    let decoded = codes::decode_fitting(layout, word, message);
    put_decoded(decoded, found)
}
