// What a sub-block of a found word holds: its value, and whether those that bear the rank hold it too. Assumes nothing.
ghost use Rattle.std.specs.Prelude.{◌≡◌, List, ℕ, ◌≤◌, ◌<◌, min, length};
ghost use Rattle.larsson.specs.Figures.{sub_blocks};
ghost use Rattle.larsson.specs.Reading;
ghost use Rattle.blocks.specs.Numbers.{kind_numbers};
ghost use Rattle.larsson_params.specs.Given.{larsson_figures_of, SubStartsOf};
ghost use Rattle.sub_blocks.specs.Given.{BearersOf};
ghost use Rattle.sub_blocks.specs.Found.{FoundWord, SubBlockValued, spelled_at};

use crate::majority::same_symbols;
use blocks::Kind;
use heads::written::with_digits;
use larsson_params::LarssonLayout;
use params::Layout;

// The value of sub-block i, or the count of placements where that is less: then it is refusal 8.
pub fn value_of(
    layout: LarssonLayout,
    starts: &[u16; Layout::MAX_HEADS],
    word: &[u8],
    i: usize,
) -> u64
    requires { FoundWord layout word.now × SubStartsOf (larsson_figures_of layout) starts.now × (i < sub_blocks (larsson_figures_of layout)) }
    ensures { result ≡ min (spelled_at (larsson_figures_of layout) word.now i) layout.placement_count }
{
    let from = starts[i] as usize;
    let end = from + layout.sub_len;
    with_digits(0, layout.q, &word[from..end], layout.placement_count)
}

// Whether each sub-block that bears the rank, by the kinds of a placement's sub-blocks, has the value of sub-block i: otherwise refusal 9.
pub fn agrees(
    layout: LarssonLayout,
    starts: &[u16; Layout::MAX_HEADS],
    kinds: &[Kind],
    word: &[u8],
    i: usize,
) -> bool
    requires found { FoundWord layout word.now × SubStartsOf (larsson_figures_of layout) starts.now × SubBlockValued (larsson_figures_of layout) word.now i }
    requires known { sub_blocks (larsson_figures_of layout) ≤ length kinds.now }
    ensures { (ss : List ℕ) → BearersOf (larsson_figures_of layout) ss (kind_numbers kinds.now) → result
        ≡ Rattle.larsson.specs.Reading.agrees (larsson_figures_of layout) word.now (spelled_at (larsson_figures_of layout) word.now i) ss }
{
    let blocks = 2 * layout.m + 1;
    for j in 0..blocks {
        if kinds[j] == Kind::Index && !same_symbols(layout, starts, word, j, i) {
            return false;
        }
    }
    true
}
