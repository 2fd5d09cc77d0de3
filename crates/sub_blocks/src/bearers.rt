// Which sub-blocks of a word bear the rank, in an array by value: those are index blocks to the walk over its cells, and the others, which have no
// head cells, burst blocks. Assumes nothing.
ghost use Rattle.std.specs.Prelude.{◌≡◌, cond, ◌&&◌, suc, ◌+◌, ◌^◌, ◌≤◌, ◌<◌, ltb};
ghost use Rattle.cells.specs.Figures.{max_word};
ghost use Rattle.larsson.specs.Figures.{sub_blocks};
ghost use Rattle.larsson.specs.Writing.{untouched as untouchedIn};
ghost use Rattle.placements.specs.Bridge.{starts_in};
ghost use Rattle.blocks.specs.Numbers.{kind_number, kind_numbers};
ghost use Rattle.blocks.specs.Blocks.{burst_kind, index_kind};
ghost use Rattle.larsson_params.specs.Given.{larsson_figures_of, SubStartsOf};
ghost use Rattle.sub_blocks.specs.Given.{BurstsOfLayout, BearersOf};

use blocks::Kind;
use larsson_params::LarssonLayout;
use params::Layout;
use placements::Placement;

// The kind of each sub-block of a placement's word: the first m + 1 that no burst touches bear the rank.
pub fn bearers_of(
    layout: LarssonLayout,
    starts: &[u16; Layout::MAX_HEADS],
    at: Placement,
) -> [Kind; Layout::MAX_BLOCKS]
    requires { BurstsOfLayout layout at × SubStartsOf (larsson_figures_of layout) starts.now }
    ensures { BearersOf (larsson_figures_of layout) (starts_in at) (kind_numbers result) }
{
    let blocks = 2 * layout.m + 1;
    let mut kinds = [Kind::Burst; Layout::MAX_BLOCKS];
    let mut met: usize = 0;
    for i in 0..blocks {
        let untouched = is_untouched(layout, starts, at, i);
        kinds[i] = kind_of(untouched, met, layout.m);
        if untouched {
            met += 1;
        }
    }
    kinds
}

// The kind of a sub-block with so many untouched ones before it.
fn kind_of(untouched: bool, met: usize, m: usize) -> Kind
    ensures { kind_number result ≡ cond (untouched && ltb met (suc m)) index_kind burst_kind }
{
    if untouched && met <= m {
        Kind::Index
    } else {
        Kind::Burst
    }
}

// Whether no burst touches sub-block i.
fn is_untouched(
    layout: LarssonLayout,
    starts: &[u16; Layout::MAX_HEADS],
    at: Placement,
    i: usize,
) -> bool
    requires { BurstsOfLayout layout at × SubStartsOf (larsson_figures_of layout) starts.now × (i < sub_blocks (larsson_figures_of layout)) }
    ensures { result ≡ untouchedIn (larsson_figures_of layout) (starts_in at) i }
{
    let from = starts[i] as usize;
    let end = from + layout.sub_len;
    let bursts = &at.starts[..at.count as usize];
    for start in bursts {
        if touches(*start as usize, layout.b, from, end) {
            return false;
        }
    }
    true
}

// Whether the burst from `start` on has a position of the stretch.
fn touches(start: usize, b: usize, from: usize, end: usize) -> bool
    requires { (start < 2 ^ 16) × (b ≤ max_word) }
    ensures { result ≡ (ltb start end && ltb from (start + b)) }
{
    start < end && from < start + b
}
