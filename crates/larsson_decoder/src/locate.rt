// From a found word to the placement that its sub-blocks show, or the refusal; the message is not looked at. Assumes nothing.
ghost use Rattle.std.specs.Prelude.{◌<◌};
ghost use Rattle.larsson_params.specs.Given.{larsson_figures_of, SubStartsOf};
ghost use Rattle.sub_blocks.specs.Found.{FoundWord};
ghost use Rattle.larsson_decoder.specs.Located.{MajorityValued, LocatedIn};

use blocks::Kind;
use larsson_params::LarssonLayout;
use params::Layout;
use placements::Placement;
use refusals::Refusal;
use sub_blocks::bearers::bearers_of;
use sub_blocks::held::{agrees, value_of};
use sub_blocks::majority::majority_block;

// What a word shows so far: a rank, its placement and the kinds of the sub-blocks.
#[derive(Clone, Copy)]
pub struct Located {
    pub rank: u64,
    pub placement: Placement,
    pub kinds: [Kind; Layout::MAX_BLOCKS],
}

// The placement that a found word shows, where sub-blocks have a symbol. Refusals: 21 8 9.
pub fn locate(
    layout: LarssonLayout,
    starts: &[u16; Layout::MAX_HEADS],
    word: &[u8],
) -> Result<Located, Refusal>
    requires { FoundWord layout word.now × SubStartsOf (larsson_figures_of layout) starts.now × (0 < layout.sub_len) }
    ensures { LocatedIn (larsson_figures_of layout) word.now result }
{
    let block = majority_block(layout, starts, word);
    if 2 * layout.m < block {
        return Err(Refusal::Majority);
    }
    let rank = value_of(layout, starts, word, block);
    if layout.placement_count <= rank {
        return Err(Refusal::Value);
    }
    locate_rank(layout, starts, word, block, rank)
}

// The same for the rank that the majority has, and one of its sub-blocks. Refusal: 9.
fn locate_rank(
    layout: LarssonLayout,
    starts: &[u16; Layout::MAX_HEADS],
    word: &[u8],
    block: usize,
    rank: u64,
) -> Result<Located, Refusal>
    requires { MajorityValued layout word.now block rank × SubStartsOf (larsson_figures_of layout) starts.now }
    ensures { LocatedIn (larsson_figures_of layout) word.now result }
{
    let placement = Placement::unrank(layout.n as u32, layout.m as u32, layout.b as u32, rank);
    let kinds = bearers_of(layout, starts, placement);
    if !agrees(layout, starts, &kinds, word, block) {
        return Err(Refusal::Disagrees);
    }
    Ok(Located {
        rank,
        placement,
        kinds,
    })
}
