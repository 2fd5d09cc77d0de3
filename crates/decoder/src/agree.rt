// Whether a placement agrees with the blocks of the word that it was read from. Assumes nothing.
ghost use Rattle.std.specs.Prelude.{◌≡◌, List, ℕ, take};
ghost use Rattle.construction_a.specs.Reading;
ghost use Rattle.params.specs.Given.{figures_of, HeadsOf};
ghost use Rattle.blocks.specs.Numbers.{kind_numbers};
ghost use Rattle.blocks.specs.Blocks.{KindsOf};
ghost use Rattle.heads.specs.Given.{CompleteWord};

use blocks::Kind;
use heads::looks::looks_fixed;
use params::Layout;
use placements::Placement;

// Whether the index blocks are those read, and each fixed block starts with 0, by the kinds of a placement's blocks: otherwise refusal 9. One walk
// over the blocks: an index block must be the next of those read, a fixed block is examined as its own stretch of the word.
pub fn agrees(
    layout: Layout,
    heads: &[u16; Layout::MAX_HEADS],
    kinds: &[Kind; Layout::MAX_BLOCKS],
    index: [u8; Placement::MAX],
    word: &[u8],
) -> bool
    requires { CompleteWord layout word.now × HeadsOf (figures_of layout) heads.now }
    ensures { (ss : List ℕ) → KindsOf (figures_of layout) ss (kind_numbers kinds.now) → result
        ≡ Rattle.construction_a.specs.Reading.agrees (figures_of layout) word.now (take layout.m index) ss }
{
    let blocks = layout.parts * layout.m;
    let mut met: usize = 0;
    for k in 0..blocks {
        match kinds[k] {
            Kind::Fixed => {
                let head = layout.block_head(heads, k);
                if !looks_fixed(&word[head..]) {
                    return false;
                }
            }
            Kind::Index => {
                if layout.m <= met {
                    return false;
                }
                if index[met] as usize != k {
                    return false;
                }
                met += 1;
            }
            Kind::Burst => {}
        }
    }
    met == layout.m
}
