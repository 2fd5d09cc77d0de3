// The codes that a word can have: their figures, the layout that these give, and word write, word read and covering under any of them. Assumes nothing.
#![tactic(auto)]

ghost use Rattle.std.specs.Prelude.{◌≡◌};
ghost use Rattle.refusals.specs.Numbers.{answer_of};
ghost use Rattle.cells.specs.Outcomes.{answer_number, figures_under, encode_under, cover_under, decode_under};
ghost use Rattle.placements.specs.Bridge.{held_as, covered_as};
ghost use Rattle.decoder.specs.Answer.{decoded_as};
ghost use Rattle.codes.specs.Bridge.{coding_of};
ghost use Rattle.codes.specs.Given.{coding_in, count_by, tail_by, Serves, of_blocks, of_sub_blocks};
ghost use Rattle.codes.specs.Answer.{figured_as, LaidAs};
ghost use Rattle.codes.specs.DemandTwo.{DecodesExactly};

use decoder::{Decoded, unread};
use larsson_params::LarssonLayout;
use params::long::LongParams;
use params::{Layout, Params};
use placements::Placement;
use refusals::Refusal;

// The figures of each code: Construction A, Construction B, and the Larsson code of the older trays.
#[derive(Clone, Copy, Debug, PartialEq, Eq)]
pub enum Figures {
    Ranked(Params),
    Long(LongParams),
    Larsson(Params),
}

// A code's own layout: by blocks, as both constructions have it, or by sub-blocks.
#[derive(Clone, Copy, Debug, PartialEq, Eq)]
pub enum Laid {
    Blocks(Layout),
    SubBlocks(LarssonLayout),
}

// The figures of a word that can be laid out, and k, which every code has; beside them the code's own layout. Construction B has one burst. Positions and
// lengths are usize, values u64.
#[derive(Clone, Copy, Debug, PartialEq, Eq)]
pub struct WordLayout {
    pub n: usize,
    pub q: u64,
    pub m: usize,
    pub b: usize,
    pub message_len: usize,
    pub laid: Laid,
}

impl Figures {
    // The layout that the figures give, whatever numbers come. Refusals in order: 1 2.
    pub fn layout(self) -> Result<WordLayout, Refusal>
        ensures answer { figured_as result ≡ figures_under (coding_of self) }
        ensures layout { LaidAs self result }
    {
        match self {
            Figures::Ranked(p) => Ok(WordLayout::from(Params::figures(p.n, p.q, p.m, p.b)?)),
            Figures::Long(p) => Ok(WordLayout::from(LongParams::figures(p.n, p.q, p.b)?)),
            Figures::Larsson(p) => {
                Ok(WordLayout::from(larsson_params::figures(p.n, p.q, p.m, p.b)?))
            }
        }
    }

    // m: Construction B has one burst.
    pub fn bursts(self) -> u32
        ensures { result ≡ (coding_of self).bursts }
    {
        match self {
            Figures::Ranked(p) => p.m,
            Figures::Long(_) => 1,
            Figures::Larsson(p) => p.m,
        }
    }

    // b.
    pub fn burst_len(self) -> u32
        ensures { result ≡ (coding_of self).burst_len }
    {
        match self {
            Figures::Ranked(p) => p.b,
            Figures::Long(p) => p.b,
            Figures::Larsson(p) => p.b,
        }
    }
}

impl WordLayout {
    // T.
    pub fn placement_count(self) -> u64
        ensures { result ≡ count_by self.laid }
    {
        match self.laid {
            Laid::Blocks(own) => own.placement_count,
            Laid::SubBlocks(own) => own.placement_count,
        }
    }

    // r, and R of the Larsson code.
    pub fn index_tail(self) -> usize
        ensures { result ≡ tail_by self.laid }
    {
        match self.laid {
            Laid::Blocks(own) => own.index_tail,
            Laid::SubBlocks(own) => own.sub_len,
        }
    }
}

impl From<Layout> for WordLayout {
    ghost from_gives = { λ own layout. layout ≡ of_blocks own };

    fn from(own: Layout) -> WordLayout {
        WordLayout {
            n: own.n,
            q: own.q,
            m: own.m,
            b: own.b,
            message_len: own.message_len,
            laid: Laid::Blocks(own),
        }
    }
}

impl From<LarssonLayout> for WordLayout {
    ghost from_gives = { λ own layout. layout ≡ of_sub_blocks own };

    fn from(own: LarssonLayout) -> WordLayout {
        WordLayout {
            n: own.n,
            q: own.q,
            m: own.m,
            b: own.b,
            message_len: own.message_len,
            laid: Laid::SubBlocks(own),
        }
    }
}

// Word write: the word of a placement and of a message of k symbols, into the lent word of n. Refusals: 1 2 3 5 4.
pub fn encode(
    figures: Figures,
    at: Placement,
    message: &[u8],
    word: &mut [u8],
) -> Result<(), Refusal>
    ensures answer { answer_of result ≡ (encode_under (coding_of figures) (held_as at) message.now word.old).answer }
    ensures word { word.new ≡ (encode_under (coding_of figures) (held_as at) message.now word.old).word }
{
    encode_fitting(figures.layout()?, at, message, word)
}

// The same for figures that fit. Refusals: 3 5 4.
pub fn encode_fitting(
    layout: WordLayout,
    at: Placement,
    message: &[u8],
    word: &mut [u8],
) -> Result<(), Refusal>
    requires { Serves layout }
    ensures answer { answer_of result ≡ (encode_under (coding_in layout) (held_as at) message.now word.old).answer }
    ensures word { word.new ≡ (encode_under (coding_in layout) (held_as at) message.now word.old).word }
{
    match layout.laid {
        Laid::Blocks(own) => encoder::encode_fitting(own, at, message, word),
        Laid::SubBlocks(own) => larsson_encoder::encode_fitting(own, at, message, word),
    }
}

// Word read: the rank and the placement of a found word of n symbols, and its message in a buffer of k, which keeps its contents where the word is
// refused. Refusals: 1 2 3 4 7 19 8 9 19, by the Larsson code 1 2 3 4 21 8 9 19.
pub fn decode(figures: Figures, word: &[u8], message: &mut [u8]) -> Decoded
    ensures outcome { decoded_as result message.new ≡ decode_under (coding_of figures) word.now message.old }
    ensures exactly { DecodesExactly figures word.now message.old (decoded_as result message.new) }
    ensures number { answer_of result.answer ≡ answer_number (decode_under (coding_of figures) word.now message.old).answer }
{
    match figures.layout() {
        Err(refusal) => unread(refusal),
        Ok(layout) => decode_fitting(layout, word, message),
    }
}

// The same for figures that fit. Refusals: 3 4 7 19 8 9 19, by the Larsson code 3 4 21 8 9 19.
pub fn decode_fitting(layout: WordLayout, word: &[u8], message: &mut [u8]) -> Decoded
    requires { Serves layout }
    ensures { decoded_as result message.new ≡ decode_under (coding_in layout) word.now message.old }
{
    match layout.laid {
        Laid::Blocks(own) => decoder::decode_fitting(own, word, message),
        Laid::SubBlocks(own) => larsson_decoder::decode_fitting(own, word, message),
    }
}

// The placement of least rank whose bursts cover every defect of a map of n bytes, 1 where a position is defective and 0 elsewhere.
// Refusals: 1 2 3 4 6.
pub fn cover(figures: Figures, map: &[u8]) -> Result<Placement, Refusal>
    ensures { covered_as result ≡ cover_under (coding_of figures) map.now }
{
    cover_fitting(figures.layout()?, map)
}

// The same for figures that fit. Refusals: 3 4 6. Covering goes by n, m and b alone.
pub fn cover_fitting(layout: WordLayout, map: &[u8]) -> Result<Placement, Refusal>
    requires { Serves layout }
    ensures { covered_as result ≡ cover_under (coding_in layout) map.now }
{
    placements::cover_within(layout.n, layout.m, layout.b, map)
}
