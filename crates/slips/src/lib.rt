// Reading a strip, and the same strip with symbols of its message altered (document 02, "What a slip can spoil"), as one function on lent buffers.
// Assumes nothing.
#![tactic(auto)]

ghost use Rattle.std.specs.Prelude.{◌≡◌};
ghost use Rattle.cells.specs.Outcomes.{decode_under};
ghost use Rattle.codes.specs.Bridge.{coding_of};
ghost use Rattle.decoder.specs.Answer.{decoded_as};
ghost use Rattle.slips.specs.Reading.{ReadsSlipped};

use codes::Figures;
use decoder::Decoded;

// What two found words are answered with.
#[derive(Clone, Copy)]
pub struct BothDecoded {
    pub first: Decoded,
    pub second: Decoded,
}

// Reads a strip and an altered one, each into a buffer of its own. Where the first is a strip spoilt inside its bursts, and the second is the first
// with d symbols altered at message positions, the clause `claim` says what is read.
pub fn decode_both(
    figures: Figures,
    strip: &[u8],
    altered: &[u8],
    message: &mut [u8],
    changed: &mut [u8],
) -> BothDecoded
    ensures first { decoded_as result.first message.new ≡ decode_under (coding_of figures) strip.now message.old }
    ensures second { decoded_as result.second changed.new ≡ decode_under (coding_of figures) altered.now changed.old }
    ensures claim { ReadsSlipped figures strip.now altered.now message.old changed.old
        (decoded_as result.first message.new) (decoded_as result.second changed.new) }
{
    let first = codes::decode(figures, strip, message);
    let second = codes::decode(figures, altered, changed);
    BothDecoded { first, second }
}
