// Where the sub-blocks of a word start, worked out once for a reading or a writing, which asks for it many times. Assumes nothing.
ghost use Rattle.larsson_params.specs.Given.{larsson_figures_of, LarssonLayoutFits, SubStartsOf};

use crate::LarssonLayout;
use params::{Layout, cut};

// The first position of each sub-block, and behind them the word's length.
pub fn starts_of(layout: LarssonLayout) -> [u16; Layout::MAX_HEADS]
    requires { LarssonLayoutFits layout }
    ensures { SubStartsOf (larsson_figures_of layout) result }
{
    let gaps = 2 * layout.m;
    let sub_blocks = gaps + 1;
    let mut starts = [0u16; Layout::MAX_HEADS];
    for i in 0..sub_blocks {
        let start = i * layout.sub_len + cut::piece_start(layout.gap_total, gaps, i);
        starts[i] = start as u16;
    }
    starts[sub_blocks] = layout.n as u16;
    starts
}
