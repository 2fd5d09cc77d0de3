// The sub-block of a found word whose value most of its sub-blocks have. Symbols are compared, so that no value passes 64 bits: sub-blocks without a
// silent cell have the same value exactly where they have the same symbols. Assumes nothing.
ghost use Rattle.std.specs.Prelude.{◌≡◌, suc, ◌+◌, ◌≤◌, ◌<◌, length, get_or};
ghost use Rattle.combinatorics.specs.Lists.{same_list};
ghost use Rattle.combinatorics.specs.Majority.{has_common};
ghost use Rattle.combinatorics.specs.Stretch.{count, tabulate};
ghost use Rattle.larsson.specs.Figures.{sub_blocks};
ghost use Rattle.larsson.specs.Reading.{sub_symbols, sub_value};
ghost use Rattle.larsson_params.specs.Given.{larsson_figures_of, SubStartsOf};
ghost use Rattle.sub_blocks.specs.Found.{FoundWord, MajorityAt};

use larsson_params::LarssonLayout;
use params::Layout;

// The first sub-block whose value at least m + 1 sub-blocks have, or 2 × m + 1 where none is: otherwise refusal 21. A value that m + 1 of them have is
// that of one of the first m + 1.
pub fn majority_block(
    layout: LarssonLayout,
    starts: &[u16; Layout::MAX_HEADS],
    word: &[u8],
) -> usize
    requires { FoundWord layout word.now × SubStartsOf (larsson_figures_of layout) starts.now }
    ensures { MajorityAt (larsson_figures_of layout) word.now result }
{
    let m = layout.m;
    for i in 0..m + 1 {
        if has_majority(layout, starts, word, i) {
            return i;
        }
    }
    2 * m + 1
}

// Whether sub-block i has a value, and at least m + 1 sub-blocks have it.
fn has_majority(
    layout: LarssonLayout,
    starts: &[u16; Layout::MAX_HEADS],
    word: &[u8],
    i: usize,
) -> bool
    requires { FoundWord layout word.now × SubStartsOf (larsson_figures_of layout) starts.now × (i < sub_blocks (larsson_figures_of layout)) }
    ensures { result ≡ has_common (sub_blocks (larsson_figures_of layout)) (suc layout.m) (sub_value (larsson_figures_of layout) word.now)
        (sub_value (larsson_figures_of layout) word.now i) }
{
    let from = starts[i] as usize;
    let end = from + layout.sub_len;
    if !symbols::all_below(&word[from..end], layout.q) {
        return false;
    }
    layout.m < votes(layout, starts, word, i)
}

// How many sub-blocks have the symbols of sub-block i.
fn votes(layout: LarssonLayout, starts: &[u16; Layout::MAX_HEADS], word: &[u8], i: usize) -> usize
    requires { FoundWord layout word.now × SubStartsOf (larsson_figures_of layout) starts.now × (i < sub_blocks (larsson_figures_of layout)) }
    ensures { result ≡ count (sub_blocks (larsson_figures_of layout)) 0
        (λ j. same_list (sub_symbols (larsson_figures_of layout) word.now j) (sub_symbols (larsson_figures_of layout) word.now i)) }
{
    let blocks = 2 * layout.m + 1;
    let mut met: usize = 0;
    for j in 0..blocks {
        if same_symbols(layout, starts, word, j, i) {
            met += 1;
        }
    }
    met
}

// Whether two sub-blocks have the same symbols.
pub fn same_symbols(
    layout: LarssonLayout,
    starts: &[u16; Layout::MAX_HEADS],
    word: &[u8],
    i: usize,
    j: usize,
) -> bool
    requires { FoundWord layout word.now × SubStartsOf (larsson_figures_of layout) starts.now × (i < sub_blocks (larsson_figures_of layout))
        × (j < sub_blocks (larsson_figures_of layout)) }
    ensures { result ≡ same_list (sub_symbols (larsson_figures_of layout) word.now i) (sub_symbols (larsson_figures_of layout) word.now j) }
{
    same_stretches(word, starts[i] as usize, starts[j] as usize, layout.sub_len)
}

// Whether two stretches of a word have the same symbols.
fn same_stretches(word: &[u8], a: usize, b: usize, len: usize) -> bool
    requires { (a + len ≤ length word.now) × (b + len ≤ length word.now) }
    ensures { result ≡ same_list (tabulate len a (λ x. get_or word.now x 0)) (tabulate len b (λ x. get_or word.now x 0)) }
{
    word[a..a + len] == word[b..b + len]
}
