// From how far into its part the one burst of Construction B ends to its placement, or the refusal. Assumes nothing.
ghost use Rattle.std.specs.Prelude.{◌≡◌, ◌<◌};
ghost use Rattle.cells.specs.Outcomes.{decoded_from};
ghost use Rattle.construction_b.specs.Figures.{parts as parts_of};
ghost use Rattle.construction_b.specs.Reading.{before, written, read_part};
ghost use Rattle.params.specs.Given.{figures_of, long_of, HeadsOf};
ghost use Rattle.decoder.specs.Answer.{decoded_as};
ghost use Rattle.decoder.specs.Reader.{EndsAt};

use crate::{Decoded, decode_placed, unread};
use params::Layout;
use placements::Placement;
use refusals::Refusal;

// What the value that the index part spells gives, or T where the value is no less: a part has no more positions than T. Refusals: 8 9 19.
pub fn decode_offset(
    layout: Layout,
    heads: &[u16; Layout::MAX_HEADS],
    part: usize,
    value: u64,
    whole: bool,
    word: &[u8],
    message: &mut [u8],
) -> Decoded
    requires { EndsAt layout part value whole word.now message.old × HeadsOf (figures_of layout) heads.now }
    ensures { decoded_as result message.new
        ≡ decoded_from layout.b message.old
        (read_part (long_of (figures_of layout)) word.now (before part) (written (long_of (figures_of layout)) word.now part)) }
{
    let ends = part_before(layout.parts, part);
    let head = layout.block_head(heads, ends);
    let next = layout.block_head(heads, ends + 1);
    if (next - head) as u64 <= value {
        return unread(Refusal::Value);
    }
    let end = head + value as usize + 1;
    if end < layout.b {
        return unread(Refusal::Disagrees);
    }
    let start = (end - layout.b) as u64;
    let placement = Placement::unrank(layout.n as u32, layout.m as u32, layout.b as u32, start);
    let kinds = blocks::kinds_of(layout, heads, placement);
    decode_placed(
        layout, heads, &kinds, placement, start, whole, word, message,
    )
}

// The part before another, round.
fn part_before(parts: usize, part: usize) -> usize
    requires { (parts ≡ parts_of) × (part < parts) }
    ensures { result ≡ before part }
{
    if part == 0 {
        return parts - 1;
    }
    part - 1
}
