// Taking the message out of a word block by block, straight from the word. Assumes nothing.
ghost use Rattle.std.specs.Prelude.{◌≡◌, suc, ◌+◌, ◌-◌, ◌≤◌, ◌<◌, length};
ghost use Rattle.combinatorics.specs.Bursts.{covers};
ghost use Rattle.combinatorics.specs.Lists.{all_below};
ghost use Rattle.cells.specs.Cells;
ghost use Rattle.cells.specs.Cells.{pick};
ghost use Rattle.cells.specs.Erasures.{erased_at};
ghost use Rattle.cells.specs.Plan.{plan_in};
ghost use Rattle.placements.specs.Bridge.{starts_in};
ghost use Rattle.blocks.specs.Numbers.{kind_number, kind_numbers};
ghost use Rattle.stretches.specs.Walk.{frame_by, head_len_of, next_start};
ghost use Rattle.stretches.specs.ByBlock.{PlacedIn};
ghost use Rattle.stretches.specs.Take.{Takeable, Scannable, TakenTo, ComesTo, Enters, CellsTaken};

use crate::Walk;
use blocks::Kind;
use params::Layout;
use placements::Placement;

// The message of a placement's word, cell by cell from left to right, by the kinds of its blocks.
pub fn take_message(
    walk: Walk,
    at: Placement,
    heads: &[u16; Layout::MAX_HEADS],
    kinds: &[Kind],
    word: &[u8],
    message: &mut [u8],
)
    requires tables { Takeable walk at heads.now (kind_numbers kinds.now) word.now message.old }
    requires known { walk.blocks ≤ length kinds.now }
    ensures { message.new ≡ pick Rattle.cells.specs.Cells.message (plan_in (frame_by walk heads.now (kind_numbers kinds.now) (starts_in at)))
        word.now }
{
    let mut here = Taking {
        at: 0,
        taken: 0,
        passed: 0,
        stop: crate::next_start(walk, at, 0),
    };
    for block in 0..walk.blocks {
        here = take_block(walk, at, heads, kinds, word, message, block, here);
    }
}

// Whether every erasure lies in a burst: otherwise the message has one, where the heads have none. A word that is `whole` has none at all.
pub fn message_whole(walk: Walk, q: u64, at: Placement, whole: bool, word: &[u8]) -> bool
    requires { (whole ≡ all_below q word.now) × Scannable walk q at word.now }
    ensures { result ≡ covers walk.n walk.b (erased_at q word.now) (starts_in at) }
{
    if whole {
        return true;
    }
    placements::bursts::cover_erasures(at, walk.b as u32, q, word)
}

// How far a word is taken apart: up to a position, so much of the message, past so many bursts. The next one starts at `stop`.
#[derive(Clone, Copy)]
struct Taking {
    at: usize,
    taken: usize,
    passed: usize,
    stop: usize,
}

// The message's cells of a block that are left, past the bursts that start in it. How many start in it is not known before, so the loop
// counts nothing: it goes by where the next burst starts.
fn take_block(
    walk: Walk,
    at: Placement,
    heads: &[u16; Layout::MAX_HEADS],
    kinds: &[Kind],
    word: &[u8],
    message: &mut [u8],
    block: usize,
    from: Taking,
) -> Taking
    requires tables { TakenTo walk at heads.now (kind_numbers kinds.now) word.now message.old from
        × Enters walk at heads.now (kind_numbers kinds.now) block from }
    requires known { walk.blocks ≤ length kinds.now }
    ensures { TakenTo walk at heads.now (kind_numbers kinds.now) word.now message.new result
        × ComesTo walk at heads.now (kind_numbers kinds.now) (suc block) result }
{
    let edge = heads[block + 1] as usize;
    let mut here = Taking {
        at: from.at + head_cells(walk, kinds[block]),
        ..from
    };
    while here.stop < edge {
        here = take_cells(word, message, here.stop, here);
        here = pass_burst(walk, at, here);
    }
    if edge <= here.at {
        return here;
    }
    take_cells(word, message, edge, here)
}

// How many cells at the head of a block of a kind are not the message's.
#[tactic(auto, unfolding(crate::specs::Walk::head_len_of))]
fn head_cells(walk: Walk, kind: Kind) -> usize
    ensures { result ≡ head_len_of walk (kind_number kind) }
{
    match kind {
        Kind::Fixed => 1,
        Kind::Index => walk.head_len,
        Kind::Burst => 0,
    }
}

// Cells of the message, up to a position.
fn take_cells(word: &[u8], message: &mut [u8], to: usize, from: Taking) -> Taking
    requires { (from.at ≤ to) × (to ≤ length word.now) × (from.taken + (to - from.at) ≤ length message.old) }
    ensures { CellsTaken word.now message.old message.new to from result }
{
    let start = from.at;
    let taken = from.taken;
    let len = to - start;
    symbols::copy_first(&mut message[taken..], &word[start..], len);
    Taking {
        at: to,
        taken: taken + len,
        ..from
    }
}

// A burst's cells hold nothing of the message.
fn pass_burst(walk: Walk, at: Placement, from: Taking) -> Taking
    requires { PlacedIn walk at × (from.at + walk.b ≤ walk.n) × (from.passed < walk.m) }
    ensures passed { (result.at ≡ from.at + walk.b) × (result.taken ≡ from.taken) × (result.passed ≡ from.passed + 1) }
    ensures stop { result.stop ≡ next_start walk.n (starts_in at) result.passed }
{
    let passed = from.passed + 1;
    let stop = crate::next_start(walk, at, passed);
    Taking {
        at: from.at + walk.b,
        passed,
        stop,
        ..from
    }
}
