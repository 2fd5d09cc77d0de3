// The walk over a word's cells, block by block, by tables of its blocks: of Constructions A and B, and of the Larsson code. Its laws are in
// proofs/ByBlock. Assumes nothing.
#![tactic(auto)]

ghost use Rattle.std.specs.Prelude.{◌≡◌};
ghost use Rattle.placements.specs.Bridge.{starts_in};
ghost use Rattle.params.specs.Given.{Shaped};
ghost use Rattle.stretches.specs.Walk.{next_start};
ghost use Rattle.stretches.specs.ByBlock.{walk_of, PlacedIn};

use params::Layout;
use placements::Placement;

pub mod fill;
pub mod taking;

// A word of n symbols with m bursts of b, cut into blocks. An index block's head holds `head_len` digits, and the digits of the next index block stand
// `digit_step` further on in the list that is lent: 0 where each holds the same.
#[derive(Clone, Copy)]
pub struct Walk {
    pub n: usize,
    pub m: usize,
    pub b: usize,
    pub blocks: usize,
    pub head_len: usize,
    pub digit_step: usize,
}

// The walk over the words of a layout.
pub fn walk_of(layout: Layout) -> Walk
    requires { Shaped layout }
    ensures { result ≡ walk_of layout }
{
    let head_len = layout.index_tail + 1;
    Walk {
        n: layout.n,
        m: layout.m,
        b: layout.b,
        blocks: layout.parts * layout.m,
        head_len,
        digit_step: head_len,
    }
}

// Where the next burst starts, or the word's end.
pub fn next_start(walk: Walk, at: Placement, burst: usize) -> usize
    requires { PlacedIn walk at }
    ensures { result ≡ next_start walk.n (starts_in at) burst }
{
    if walk.m <= burst {
        return walk.n;
    }
    let start = at.starts[burst];
    start as usize
}
