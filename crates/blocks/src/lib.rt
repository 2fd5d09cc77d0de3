// Which blocks of a word are fixed, burst and index blocks (document 01's F, B and I), in an array by value. Assumes nothing.
#![tactic(auto)]

ghost use Rattle.std.specs.Prelude.{◌≡◌, not, ℕ, ◌+◌, ◌*◌, ◌≤◌, ◌<◌, eqb, length, get_or, replicate};
ghost use Rattle.combinatorics.specs.Stretch.{count, first};
ghost use Rattle.construction_a.specs.Writing;
ghost use Rattle.cells.specs.Round.{next};
ghost use Rattle.construction_a.specs.Writing.{becomes, part_count, part_with, Chosen, chosen, is_index_in};
ghost use Rattle.placements.specs.Bridge.{starts_in, PlacesBursts};
ghost use Rattle.params.specs.Given.{max_blocks, figures_of, HeadsOf};
ghost use Rattle.blocks.specs.Numbers.{kind_numbers};
ghost use Rattle.blocks.specs.Blocks.{fixed_kind, burst_set, marked, BurstsOf, KindsOf};

use params::Layout;
use placements::Placement;

// What a block of a word is.
#[derive(Clone, Copy, Debug, PartialEq, Eq)]
pub enum Kind {
    Fixed,
    Burst,
    Index,
}

// The kind of each block of a placement's word.
pub fn kinds_of(
    layout: Layout,
    heads: &[u16; Layout::MAX_HEADS],
    at: Placement,
) -> [Kind; Layout::MAX_BLOCKS]
    requires { PlacesBursts layout at × HeadsOf (figures_of layout) heads.now }
    ensures { KindsOf (figures_of layout) (starts_in at) (kind_numbers result) }
{
    let mut kinds = [Kind::Fixed; Layout::MAX_BLOCKS];
    mark_bursts(layout, heads, at, &mut kinds);
    mark_index(&mut kinds, layout.parts, layout.m);
    kinds
}

// The burst blocks marked, in an array of fixed blocks. Bursts are taken from left to right: none ends before the block in which the one before ended.
fn mark_bursts(
    layout: Layout,
    heads: &[u16; Layout::MAX_HEADS],
    at: Placement,
    kinds: &mut [Kind; Layout::MAX_BLOCKS],
)
    requires { PlacesBursts layout at × HeadsOf (figures_of layout) heads.now × (kind_numbers kinds.old ≡ replicate max_blocks fixed_kind) }
    ensures size { length kinds.new ≡ max_blocks }
    ensures bursts { BurstsOf (figures_of layout) (starts_in at) (kind_numbers kinds.new) }
{
    let blocks = layout.parts * layout.m;
    let mut last: usize = 0;
    for j in 0..layout.m {
        let start = at.starts[j] as usize;
        last = layout.block_from(heads, last, start + layout.b - 1);
        let next = burst_block(kinds, blocks, last);
        kinds[next] = Kind::Burst;
    }
}

// The index blocks marked, in an array with the burst blocks, by the three cases of the rule.
fn mark_index(kinds: &mut [Kind; Layout::MAX_BLOCKS], parts: usize, m: usize)
    requires { (0 < m) × (parts * m ≤ max_blocks) × (parts ≤ max_blocks) × (m ≤ max_blocks) × (length kinds.old ≡ max_blocks)
        × (count (parts * m) 0 (burst_set (kind_numbers kinds.old)) ≡ m) }
    ensures { (k : ℕ) → k < parts * m → get_or (kind_numbers kinds.new) k 0
        ≡ marked (is_index_in m (burst_set (kind_numbers kinds.old)) (chosen parts m (burst_set (kind_numbers kinds.old)))) (kind_numbers kinds.old) k }
{
    let full = part_with(kinds, parts, m, m);
    if full < parts {
        mark_part(kinds, m, following(parts, full));
        return;
    }
    let bare = part_with(kinds, parts, m, 0);
    if bare < parts {
        mark_part(kinds, m, bare);
        return;
    }
    mark_one_each(kinds, parts, m);
}

// Every block of a part marked as index block.
fn mark_part(kinds: &mut [Kind; Layout::MAX_BLOCKS], m: usize, part: usize)
    requires { (0 < m) × (part * m + m ≤ max_blocks) × (length kinds.old ≡ max_blocks) }
    ensures { (k : ℕ) → get_or (kind_numbers kinds.new) k 0
        ≡ marked (is_index_in m (burst_set (kind_numbers kinds.old)) (Chosen.whole part)) (kind_numbers kinds.old) k }
{
    let from = part * m;
    for j in 0..m {
        kinds[from + j] = Kind::Index;
    }
}

// Of each part the block beside its burst block marked as index block. A part is looked at before a block of it is marked.
fn mark_one_each(kinds: &mut [Kind; Layout::MAX_BLOCKS], parts: usize, m: usize)
    requires { (parts * m ≤ max_blocks) × (length kinds.old ≡ max_blocks) × ((i : ℕ) → i < parts → 0 < part_count m (burst_set (kind_numbers kinds.old)) i) }
    ensures { (k : ℕ) → k < parts * m → get_or (kind_numbers kinds.new) k 0
        ≡ marked (is_index_in m (burst_set (kind_numbers kinds.old)) Chosen.one_each) (kind_numbers kinds.old) k }
{
    for i in 0..parts {
        let at = i * m + beside(kinds, m, i);
        kinds[at] = Kind::Index;
    }
}

// The next burst block: block `last`, in which a burst ends, or the leftmost spare where it is one already.
fn burst_block(kinds: &[Kind; Layout::MAX_BLOCKS], blocks: usize, last: usize) -> usize
    requires { (last < blocks) × (blocks ≤ max_blocks) × (count blocks 0 (burst_set (kind_numbers kinds.now)) < blocks) }
    ensures { (result ≡ becomes blocks (burst_set (kind_numbers kinds.now)) last) × (result < blocks) }
{
    if kinds[last] == Kind::Burst {
        return first_spare(kinds, blocks);
    }
    last
}

// The leftmost block that is no burst block, or `blocks`.
fn first_spare(kinds: &[Kind; Layout::MAX_BLOCKS], blocks: usize) -> usize
    requires { blocks ≤ max_blocks }
    ensures { result ≡ first blocks 0 (λ k. not (burst_set (kind_numbers kinds.now) k)) }
{
    for k in 0..blocks {
        if kinds[k] != Kind::Burst {
            return k;
        }
    }
    blocks
}

// Whether part `part` has so many burst blocks: it is left as soon as it has more, or too few blocks to come.
fn has_bursts(kinds: &[Kind; Layout::MAX_BLOCKS], m: usize, part: usize, wanted: usize) -> bool
    requires { part * m + m ≤ max_blocks }
    ensures { result ≡ eqb (part_count m (burst_set (kind_numbers kinds.now)) part) wanted }
{
    let from = part * m;
    let mut missing = wanted;
    for j in 0..m {
        if kinds[from + j] == Kind::Burst {
            if missing == 0 {
                return false;
            }
            missing -= 1;
        }
        if m - (j + 1) < missing {
            return false;
        }
    }
    missing == 0
}

// The first part that has so many burst blocks, or `parts`.
fn part_with(kinds: &[Kind; Layout::MAX_BLOCKS], parts: usize, m: usize, wanted: usize) -> usize
    requires { parts * m ≤ max_blocks }
    ensures { result ≡ part_with parts m (burst_set (kind_numbers kinds.now)) wanted }
{
    for i in 0..parts {
        if has_bursts(kinds, m, i, wanted) {
            return i;
        }
    }
    parts
}

// The block of a part that comes after its first burst block, 0 after the last; counted within the part.
fn beside(kinds: &[Kind; Layout::MAX_BLOCKS], m: usize, part: usize) -> usize
    requires { part * m + m ≤ max_blocks }
    ensures { result ≡ Rattle.construction_a.specs.Writing.beside m (burst_set (kind_numbers kinds.now)) part }
{
    let from = part * m;
    for j in 0..m {
        if kinds[from + j] == Kind::Burst {
            return following(m, j);
        }
    }
    following(m, m)
}

// The number after i, of n: 0 after the last.
fn following(n: usize, i: usize) -> usize
    requires { (i ≤ n) × (n ≤ max_blocks) }
    ensures { result ≡ next n i }
{
    if i + 1 == n {
        return 0;
    }
    i + 1
}
