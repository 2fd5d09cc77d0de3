// Filling a word: the rank's digits into the sub-blocks that bear it, and then the walk over its cells. Assumes nothing.
ghost use Rattle.std.specs.Prelude.{◌≡◌, ◌∷◌, ◌<◌};
ghost use Rattle.larsson.specs.Writing;
ghost use Rattle.larsson.specs.Writing.{rank_digits};
ghost use Rattle.placements.specs.Bridge.{starts_in};
ghost use Rattle.blocks.specs.Numbers.{kind_numbers};
ghost use Rattle.larsson_params.specs.Given.{larsson_figures_of, SubStartsOf};
ghost use Rattle.sub_blocks.specs.Given.{BearersOf};
ghost use Rattle.larsson_encoder.specs.Writable.{LarssonWritable};

use blocks::Kind;
use encoder::digits::spelled;
use larsson_params::LarssonLayout;
use larsson_params::starts::starts_of;
use params::Layout;
use placements::Placement;
use sub_blocks::bearers::bearers_of;

// The word of a placement and a message. Where there is one placement, nothing spells its rank, and its bursts have the whole word.
pub fn fill(layout: LarssonLayout, at: Placement, message: &[u8], word: &mut [u8])
    requires { LarssonWritable layout at message.now word.old }
    ensures { word.new ≡ Rattle.larsson.specs.Writing.word (larsson_figures_of layout) (starts_in at) message.now }
{
    if layout.sub_len == 0 {
        symbols::clear(word);
        return;
    }
    fill_borne(layout, at, message, word);
}

// The same where sub-blocks have a symbol. The digits of the rank stand behind a lead digit, which is not written.
fn fill_borne(layout: LarssonLayout, at: Placement, message: &[u8], word: &mut [u8])
    requires { LarssonWritable layout at message.now word.old × (0 < layout.sub_len) }
    ensures { word.new ≡ Rattle.larsson.specs.Writing.word (larsson_figures_of layout) (starts_in at) message.now }
{
    let rank = at.rank(layout.b as u32);
    let digits = spelled(layout.q, 1, layout.sub_len, rank);
    let count = layout.sub_len + 1;
    let starts = starts_of(layout);
    fill_digits(
        layout,
        at,
        &starts,
        &bearers_of(layout, &starts, at),
        &digits[..count],
        message,
        word,
    );
}

// The same with the tables of the sub-blocks, and the digits behind the lead digit.
fn fill_digits(
    layout: LarssonLayout,
    at: Placement,
    starts: &[u16; Layout::MAX_HEADS],
    kinds: &[Kind; Layout::MAX_BLOCKS],
    digits: &[u8],
    message: &[u8],
    word: &mut [u8],
)
    requires { LarssonWritable layout at message.now word.old × (0 < layout.sub_len) × SubStartsOf (larsson_figures_of layout) starts.now
        × BearersOf (larsson_figures_of layout) (starts_in at) (kind_numbers kinds.now) × (digits.now ≡ 1 ∷ rank_digits (larsson_figures_of layout) (starts_in at)) }
    ensures { word.new ≡ Rattle.larsson.specs.Writing.word (larsson_figures_of layout) (starts_in at) message.now }
{
    let walk = larsson_words::walk_of(layout.n, layout.m, layout.b, layout.sub_len);
    larsson_words::fill(
        walk,
        layout.q,
        at,
        starts,
        kinds,
        &digits[1..],
        message,
        word,
    );
}
