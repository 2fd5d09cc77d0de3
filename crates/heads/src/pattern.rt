// The listed patterns: from the blocks that look fixed to the index blocks. Each block is examined as its own stretch of the word. Assumes nothing.
ghost use Rattle.std.specs.Prelude.{◌≡◌, not, IfSome, List, [], ◌∷◌, ◌++◌, ℕ, ◌+◌, ◌*◌, ◌≤◌, ◌<◌, take};
ghost use Rattle.combinatorics.specs.Stretch.{has, consecutive};
ghost use Rattle.cells.specs.Figures.{max_bursts};
ghost use Rattle.construction_a.specs.Figures.{parts as parts_of};
ghost use Rattle.construction_a.specs.Writing.{row};
ghost use Rattle.cells.specs.Round.{later};
ghost use Rattle.construction_a.specs.Reading.{looks_fixed, bare_parts, open_blocks, index_in_part, collect, index_found};
ghost use Rattle.params.specs.Given.{figures_of, max_blocks, HeadsOf};
ghost use Rattle.heads.specs.Given.{CompleteWord};
ghost use Rattle.heads.specs.Patterns.{candidates_of, picked, index_in};

use crate::looks::looks_fixed;
use params::Layout;
use placements::Placement;

// Numbers taken in ascending order: how many, and the first two of them.
#[derive(Clone, Copy, Debug, PartialEq, Eq)]
struct Candidates {
    count: usize,
    first: usize,
    second: usize,
}

// The index blocks that a found word shows: every block of the part without a block that looks fixed, or of the later of two such parts, or one block
// of each part; otherwise refusal 7.
pub fn index_read(
    layout: Layout,
    heads: &[u16; Layout::MAX_HEADS],
    word: &[u8],
) -> Option<[u8; Placement::MAX]>
    requires { CompleteWord layout word.now × HeadsOf (figures_of layout) heads.now }
    ensures { index_in layout.m result ≡ index_found (parts_of (figures_of layout)) layout.m (looks_fixed (figures_of layout) word.now) }
{
    let parts = layout.parts;
    let m = layout.m;
    let bare = bare_parts(layout, heads, word);
    match bare.later(parts) {
        Some(part) => Some(whole_part(m, part)),
        None => {
            if bare.count != 0 {
                return None;
            }
            if m <= 2 {
                return None;
            }
            one_each(layout, heads, word)
        }
    }
}

// Every block of a part.
fn whole_part(m: usize, part: usize) -> [u8; Placement::MAX]
    requires { (m ≤ max_bursts) × (part * m + m ≤ max_blocks) }
    ensures { take m result ≡ consecutive m (part * m) }
{
    let from = part * m;
    let mut blocks = [0u8; Placement::MAX];
    for j in 0..m {
        blocks[j] = (from + j) as u8;
    }
    blocks
}

// One block of each part, where each part shows one.
fn one_each(
    layout: Layout,
    heads: &[u16; Layout::MAX_HEADS],
    word: &[u8],
) -> Option<[u8; Placement::MAX]>
    requires { CompleteWord layout word.now × HeadsOf (figures_of layout) heads.now }
    ensures { index_in layout.parts result ≡ collect layout.parts 0 (index_in_part layout.m (looks_fixed (figures_of layout) word.now)) }
{
    let m = layout.m;
    let mut blocks = [0u8; Placement::MAX];
    for i in 0..layout.parts {
        match open_blocks(layout, heads, word, i).later(m) {
            Some(j) => blocks[i] = (i * m + j) as u8,
            None => return None,
        }
    }
    Some(blocks)
}

// The parts without a block that looks fixed.
fn bare_parts(layout: Layout, heads: &[u16; Layout::MAX_HEADS], word: &[u8]) -> Candidates
    requires { CompleteWord layout word.now × HeadsOf (figures_of layout) heads.now }
    ensures { result ≡ candidates_of (bare_parts layout.parts layout.m (looks_fixed (figures_of layout) word.now)) }
{
    let mut bare = Candidates::none();
    for i in 0..layout.parts {
        if is_bare(layout, heads, word, i) {
            bare = bare.with_next(i);
        }
    }
    bare
}

// Whether no block of a part looks fixed: left at the first that does.
fn is_bare(layout: Layout, heads: &[u16; Layout::MAX_HEADS], word: &[u8], part: usize) -> bool
    requires { CompleteWord layout word.now × HeadsOf (figures_of layout) heads.now × (part < layout.parts) }
    ensures { result ≡ not (has layout.m 0 (row layout.m (looks_fixed (figures_of layout) word.now) part)) }
{
    let from = part * layout.m;
    for j in 0..layout.m {
        let head = layout.block_head(heads, from + j);
        if looks_fixed(&word[head..]) {
            return false;
        }
    }
    true
}

// The blocks of a part that don't look fixed, counted within the part.
fn open_blocks(
    layout: Layout,
    heads: &[u16; Layout::MAX_HEADS],
    word: &[u8],
    part: usize,
) -> Candidates
    requires { CompleteWord layout word.now × HeadsOf (figures_of layout) heads.now × (part < layout.parts) }
    ensures { result ≡ candidates_of (open_blocks layout.m (looks_fixed (figures_of layout) word.now) part) }
{
    let from = part * layout.m;
    let mut shown = Candidates::none();
    for j in 0..layout.m {
        let head = layout.block_head(heads, from + j);
        if !looks_fixed(&word[head..]) {
            shown = shown.with_next(j);
        }
    }
    shown
}

impl Candidates {
    fn none() -> Candidates
        ensures { result ≡ candidates_of [] }
    {
        Candidates {
            count: 0,
            first: 0,
            second: 0,
        }
    }

    // One candidate more, behind the others.
    fn with_next(self, x: usize) -> Candidates
        requires { self.count < max_blocks }
        ensures { (xs : List ℕ) → self ≡ candidates_of xs → result ≡ candidates_of (xs ++ (x ∷ [])) }
    {
        if self.count == 0 {
            return Candidates {
                count: 1,
                first: x,
                second: 0,
            };
        }
        if self.count == 1 {
            return Candidates {
                count: 2,
                first: self.first,
                second: x,
            };
        }
        Candidates {
            count: self.count + 1,
            first: self.first,
            second: self.second,
        }
    }

    // Of numbers below n the one candidate, or the later of two neighbours, which for the first and the last is the first.
    fn later(self, n: usize) -> Option<usize>
        requires { (self.first < n) × (self.second < n) }
        ensures later { (xs : List ℕ) → self ≡ candidates_of xs → picked result ≡ later n xs }
        ensures below { IfSome result (λ i. i < n) }
    {
        if self.count == 1 {
            return Some(self.first);
        }
        if self.count != 2 {
            return None;
        }
        if self.second == self.first + 1 {
            return Some(self.second);
        }
        if self.first != 0 {
            return None;
        }
        if self.second + 1 != n {
            return None;
        }
        Some(0)
    }
}
