// Cells of a found word that could not be read (document 02, "Cells without a reading"): where they are refused. A word that is `whole` has none, and
// one test of its symbols has told so. Assumes nothing.
ghost use Rattle.std.specs.Prelude.{◌≡◌, take};
ghost use Rattle.combinatorics.specs.Lists.{all_below};
ghost use Rattle.cells.specs.Erasures.{found_bound};
ghost use Rattle.params.specs.Given.{figures_of, HeadsOf};
ghost use Rattle.heads.specs.Written.{first_symbols_in, OpenHeads};

use params::Layout;
use params::found::found_bound;
use placements::Placement;

// Whether no value is above q: otherwise refusal 4.
pub fn can_be_found(layout: Layout, whole: bool, word: &[u8]) -> bool
    requires { whole ≡ all_below layout.q word.now }
    ensures { result ≡ all_below (found_bound layout.q) word.now }
{
    if whole {
        return true;
    }
    symbols::all_below(word, found_bound(layout.q))
}

// Whether the first r + 1 symbols of every index block could be read: otherwise refusal 19.
pub fn index_whole(
    layout: Layout,
    heads: &[u16; Layout::MAX_HEADS],
    index: [u8; Placement::MAX],
    whole: bool,
    word: &[u8],
) -> bool
    requires { (whole ≡ all_below layout.q word.now) × OpenHeads layout word.now index × HeadsOf (figures_of layout) heads.now }
    ensures { result ≡ all_below layout.q (first_symbols_in layout word.now (take layout.m index)) }
{
    if whole {
        return true;
    }
    heads::written::heads_below(layout, heads, word, index)
}
