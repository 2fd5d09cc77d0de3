// The word reader of both constructions: from a found word to its rank, its placement and its message, or the refusal. Assumes nothing.
#![tactic(auto)]

ghost use Rattle.std.specs.Prelude.{◌≡◌, List, ℕ, take};
ghost use Rattle.cells.specs.Outcomes.{unread as unreadAs, decoded_from, decode_under};
ghost use Rattle.construction_a.specs.Reading.{written, read_rank};
ghost use Rattle.params.specs.Given.{figures_of, blocks_coding, BlocksServe, HeadsOf};
ghost use Rattle.placements.specs.Bridge.{starts_in};
ghost use Rattle.blocks.specs.Numbers.{kind_numbers};
ghost use Rattle.stretches.specs.ByBlock.{Tables};
ghost use Rattle.decoder.specs.Answer.{decoded_by, decoded_as};
ghost use Rattle.decoder.specs.Reader.{read_message, WordLent, IndexShown, RankRead, Located};

use blocks::Kind;
use params::heads::put_heads;
use params::{Layout, Spells};
use placements::Placement;
use refusals::Refusal;
use stretches::taking::{message_whole, take_message};

mod agree;
mod erasures;
mod offset;
pub mod starts;

// What a found word is answered with: its rank where it is accepted, or the refusal; and the placement beside it, with no starts where the word is refused.
#[derive(Clone, Copy, Debug, PartialEq, Eq)]
pub struct Decoded<E = Refusal> {
    pub answer: Result<u64, E>,
    pub placement: Placement,
}

// Word read for figures that fit: the rank and the placement of a found word of n symbols, and its message in a buffer of k, which keeps its contents where
// the word is refused. Refusals: 3 4 7 19 8 9 19.
pub fn decode_fitting(layout: Layout, word: &[u8], message: &mut [u8]) -> Decoded
    requires { BlocksServe layout }
    ensures { decoded_as result message.new ≡ decode_under (blocks_coding layout) word.now message.old }
{
    if word.len() != layout.n {
        return unread(Refusal::Length);
    }
    if message.len() != layout.message_len {
        return unread(Refusal::Length);
    }
    let whole = symbols::all_below(word, layout.q);
    if !erasures::can_be_found(layout, whole, word) {
        return unread(Refusal::Symbol);
    }
    let mut heads = [0u16; Layout::MAX_HEADS];
    put_heads(&mut heads, layout);
    decode_found(layout, &heads, whole, word, message)
}

// The same for a word that can be found; it is `whole` where it has no erasure at all. Refusals: 7 19 8 9 19.
fn decode_found(
    layout: Layout,
    heads: &[u16; Layout::MAX_HEADS],
    whole: bool,
    word: &[u8],
    message: &mut [u8],
) -> Decoded
    requires { WordLent layout whole word.now message.old × HeadsOf (figures_of layout) heads.now }
    ensures { decoded_as result message.new ≡ decoded_from layout.b message.old ((blocks_coding layout).codec.decode word.now) }
{
    match heads::pattern::index_read(layout, heads, word) {
        Some(index) => decode_index(layout, heads, index, whole, word, message),
        None => unread(Refusal::Pattern),
    }
}

// The same for the index blocks that the word shows. Refusals: 19 8 9 19.
fn decode_index(
    layout: Layout,
    heads: &[u16; Layout::MAX_HEADS],
    index: [u8; Placement::MAX],
    whole: bool,
    word: &[u8],
    message: &mut [u8],
) -> Decoded
    requires { IndexShown layout index whole word.now message.old × HeadsOf (figures_of layout) heads.now }
    ensures { decoded_as result message.new ≡ decoded_from layout.b message.old ((blocks_coding layout).codec.decode word.now) }
{
    if !erasures::index_whole(layout, heads, index, whole, word) {
        return unread(Refusal::Erased);
    }
    let value = heads::written::written_value(layout, heads, word, index);
    match layout.spells {
        Spells::Rank => decode_rank(layout, heads, index, value, whole, word, message),
        Spells::EndOffset => {
            let part = index[0];
            offset::decode_offset(layout, heads, part as usize, value, whole, word, message)
        }
    }
}

// The same for the rank that index blocks spell, or T where the value is no less. Refusals: 8 9 19.
fn decode_rank(
    layout: Layout,
    heads: &[u16; Layout::MAX_HEADS],
    index: [u8; Placement::MAX],
    rank: u64,
    whole: bool,
    word: &[u8],
    message: &mut [u8],
) -> Decoded
    requires { RankRead layout (take layout.m index) rank whole word.now message.old × HeadsOf (figures_of layout) heads.now }
    ensures { decoded_as result message.new
        ≡ decoded_from layout.b message.old
        (read_rank (figures_of layout) word.now (take layout.m index) (written (figures_of layout) word.now (take layout.m index))) }
{
    if layout.placement_count <= rank {
        return unread(Refusal::Value);
    }
    let placement = Placement::unrank(layout.n as u32, layout.m as u32, layout.b as u32, rank);
    let kinds = blocks::kinds_of(layout, heads, placement);
    if !agree::agrees(layout, heads, &kinds, index, word) {
        return unread(Refusal::Disagrees);
    }
    decode_placed(layout, heads, &kinds, placement, rank, whole, word, message)
}

// The same for the placement that the word was read to have, and its rank. Refusal: 19. The message is taken where nothing can be refused any more.
fn decode_placed(
    layout: Layout,
    heads: &[u16; Layout::MAX_HEADS],
    kinds: &[Kind; Layout::MAX_BLOCKS],
    placement: Placement,
    rank: u64,
    whole: bool,
    word: &[u8],
    message: &mut [u8],
) -> Decoded
    requires { Located layout placement rank whole word.now message.old × Tables layout placement heads.now (kind_numbers kinds.now) }
    ensures { decoded_as result message.new
        ≡ decoded_from layout.b message.old (read_message layout word.now (starts_in placement)) }
{
    let walk = stretches::walk_of(layout);
    if !message_whole(walk, layout.q, placement, whole, word) {
        return unread(Refusal::Erased);
    }
    take_message(walk, placement, heads, kinds, word, message);
    Decoded {
        answer: Ok(rank),
        placement,
    }
}

// A refusal, with no placement, by whatever numbers refusals have.
pub fn unread<E: Copy>(refusal: E) -> Decoded<E>
    ensures { (number : E → ℕ) (out : List ℕ) → decoded_by number result out ≡ unreadAs out (number refusal) }
{
    Decoded {
        answer: Err(refusal),
        placement: Placement::none(),
    }
}
