// The Larsson code's word reader: from a found word to its rank, its placement and its message, or the refusal. Assumes nothing.
#![tactic(auto)]

ghost use Rattle.std.specs.Prelude.{◌≡◌, []};
ghost use Rattle.cells.specs.Codec.{accepted};
ghost use Rattle.cells.specs.Outcomes.{decoded_from, decode_under};
ghost use Rattle.cells.specs.Figures.{placement_of};
ghost use Rattle.larsson.specs.Outcomes.{coding};
ghost use Rattle.larsson.specs.Reading.{read};
ghost use Rattle.blocks.specs.Numbers.{kind_numbers};
ghost use Rattle.decoder.specs.Answer.{decoded_as};
ghost use Rattle.larsson_params.specs.Given.{larsson_figures_of, LarssonLayoutFits, SubStartsOf};
ghost use Rattle.larsson_decoder.specs.Located.{LarssonWordLent, LocatedAt};

use crate::locate::{Located, locate};
use decoder::{Decoded, unread};
use larsson_params::LarssonLayout;
use larsson_params::starts::starts_of;
use params::Layout;
use placements::Placement;
use placements::bursts::cover_erasures;
use refusals::Refusal;

pub mod locate;

// Word read for figures that fit: the rank and the placement of a found word of n symbols, and its message in a buffer of k, which keeps its contents where
// the word is refused. Refusals: 3 4 21 8 9 19.
pub fn decode_fitting(layout: LarssonLayout, word: &[u8], message: &mut [u8]) -> Decoded
    requires { LarssonLayoutFits layout }
    ensures { decoded_as result message.new ≡ decode_under (coding (larsson_figures_of layout)) word.now message.old }
{
    if word.len() != layout.n {
        return unread(Refusal::Length);
    }
    if message.len() != layout.message_len {
        return unread(Refusal::Length);
    }
    if !symbols::all_below(word, layout.q + 1) {
        return unread(Refusal::Symbol);
    }
    if layout.sub_len == 0 {
        return only_placement(layout);
    }
    decode_found(layout, &starts_of(layout), word, message)
}

// Where there is one placement, nothing spells its rank, its bursts have the whole word, and every word is accepted.
fn only_placement(layout: LarssonLayout) -> Decoded
    requires { LarssonLayoutFits layout × (layout.sub_len ≡ 0) }
    ensures { decoded_as result [] ≡ decoded_from layout.b [] (accepted (placement_of (larsson_figures_of layout) 0) []) }
{
    Decoded {
        answer: Ok(0),
        placement: Placement::unrank(layout.n as u32, layout.m as u32, layout.b as u32, 0),
    }
}

// The same for a word that can be found, where sub-blocks have a symbol. Refusals: 21 8 9 19.
fn decode_found(
    layout: LarssonLayout,
    starts: &[u16; Layout::MAX_HEADS],
    word: &[u8],
    message: &mut [u8],
) -> Decoded
    requires { LarssonWordLent layout word.now message.old × SubStartsOf (larsson_figures_of layout) starts.now }
    ensures { decoded_as result message.new ≡ decoded_from layout.b message.old (read (larsson_figures_of layout) word.now) }
{
    match locate(layout, starts, word) {
        Err(refusal) => unread(refusal),
        Ok(located) => decode_placed(layout, starts, located, word, message),
    }
}

// The same for what the word was read to have. Refusal: 19. The message is taken where nothing can be refused any more.
fn decode_placed(
    layout: LarssonLayout,
    starts: &[u16; Layout::MAX_HEADS],
    located: Located,
    word: &[u8],
    message: &mut [u8],
) -> Decoded
    requires { LarssonWordLent layout word.now message.old × SubStartsOf (larsson_figures_of layout) starts.now
        × LocatedAt (larsson_figures_of layout) word.now located.rank located.placement (kind_numbers located.kinds) }
    ensures { decoded_as result message.new ≡ decoded_from layout.b message.old (read (larsson_figures_of layout) word.now) }
{
    let placement = located.placement;
    if !cover_erasures(placement, layout.b as u32, layout.q, word) {
        return unread(Refusal::Erased);
    }
    let walk = larsson_words::walk_of(layout.n, layout.m, layout.b, layout.sub_len);
    larsson_words::take_message(
        walk,
        layout.q,
        placement,
        starts,
        &located.kinds,
        word,
        message,
    );
    Decoded {
        answer: Ok(located.rank),
        placement,
    }
}
