// Where the blocks of a word start, worked out once for a reading or a writing, which asks for it many times. Assumes nothing.
ghost use Rattle.std.specs.Prelude.{◌≡◌, ℕ, suc, ◌+◌, ◌≤◌, ◌<◌, length, get_or};
ghost use Rattle.cells.specs.Cut.{piece_start};
ghost use Rattle.cells.specs.Figures.{max_word};
ghost use Rattle.params.specs.Given.{max_blocks, figures_of, Shaped, HeadsOf};

use crate::{Layout, cut};

// The first position of each block, counted through the word, and behind them the word's length. Each is the one before and a length: a product for each
// costs more. The array is lent, as one handed back is copied.
pub fn put_heads(heads: &mut [u16; Layout::MAX_HEADS], layout: Layout)
    requires { Shaped layout × (length heads.old ≡ suc max_blocks) }
    ensures { HeadsOf (figures_of layout) heads.new }
{
    let parts = layout.parts;
    let m = layout.m;
    let mut first: usize = 0;
    let mut from: usize = 0;
    for i in 0..parts {
        let len = cut::piece_len(layout.n, parts, i);
        put_part(heads, first, m, from, len);
        first += m;
        from += len;
    }
    heads[first] = layout.n as u16;
}

// The m blocks of a part of this length: their numbers go from `first` on, their positions from `from` on.
fn put_part(heads: &mut [u16; Layout::MAX_HEADS], first: usize, m: usize, from: usize, len: usize)
    requires { (0 < m) × (first + m ≤ max_blocks) × (from + len ≤ max_word) × (length heads.old ≡ suc max_blocks) }
    ensures size { length heads.new ≡ suc max_blocks }
    ensures before { (k : ℕ) → k < first → get_or heads.new k 0 ≡ get_or heads.old k 0 }
    ensures part { (j : ℕ) → j < m → get_or heads.new (first + j) 0 ≡ from + piece_start len m j }
{
    let mut head = from;
    for j in 0..m {
        heads[first + j] = head as u16;
        head += cut::piece_len(len, m, j);
    }
}
