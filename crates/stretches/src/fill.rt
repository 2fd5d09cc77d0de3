// Filling a word block by block, straight from the digits and the message. Assumes nothing.
ghost use Rattle.std.specs.Prelude.{◌≡◌, suc, ◌+◌, ◌-◌, ◌≤◌, ◌<◌, length};
ghost use Rattle.cells.specs.Cells.{weave};
ghost use Rattle.cells.specs.Plan.{plan_in};
ghost use Rattle.placements.specs.Bridge.{starts_in};
ghost use Rattle.blocks.specs.Numbers.{kind_numbers};
ghost use Rattle.stretches.specs.Walk.{frame_by, digits_by, next_start};
ghost use Rattle.stretches.specs.ByBlock.{PlacedIn};
ghost use Rattle.stretches.specs.Fill.{Fillable, FilledTo, ComesTo, Enters, HeadPassed, MessageFilled, BurstFilled};

use crate::Walk;
use blocks::Kind;
use params::Layout;
use placements::Placement;

// The cells of the word from left to right, by the kinds of its blocks; what may stand behind these is not looked at.
pub fn fill_cells(
    walk: Walk,
    at: Placement,
    heads: &[u16; Layout::MAX_HEADS],
    kinds: &[Kind],
    digits: &[u8],
    message: &[u8],
    word: &mut [u8],
)
    requires tables { Fillable walk at heads.now (kind_numbers kinds.now) digits.now message.now word.old }
    requires known { walk.blocks ≤ length kinds.now }
    ensures { word.new ≡ weave (plan_in (frame_by walk heads.now (kind_numbers kinds.now) (starts_in at)))
        (digits_by walk (kind_numbers kinds.now) digits.now) message.now }
{
    let mut here = Filling {
        at: 0,
        indexed: 0,
        sent: 0,
        passed: 0,
        stop: crate::next_start(walk, at, 0),
    };
    for block in 0..walk.blocks {
        here = fill_block(walk, at, heads, kinds, digits, message, word, block, here);
    }
}

// How far a word is filled: up to a position, with so many index blocks and so much of the message, past so many bursts. The next one starts at
// `stop`, which is carried along, as most blocks have none.
#[derive(Clone, Copy)]
struct Filling {
    at: usize,
    indexed: usize,
    sent: usize,
    passed: usize,
    stop: usize,
}

// The cells of a block that are left, and those of the bursts that start in it. How many start in it is not known before, so the loop
// counts nothing: it goes by where the next burst starts.
fn fill_block(
    walk: Walk,
    at: Placement,
    heads: &[u16; Layout::MAX_HEADS],
    kinds: &[Kind],
    digits: &[u8],
    message: &[u8],
    word: &mut [u8],
    block: usize,
    from: Filling,
) -> Filling
    requires tables { FilledTo walk at heads.now (kind_numbers kinds.now) digits.now message.now word.old from
        × Enters walk at heads.now (kind_numbers kinds.now) block from }
    requires known { walk.blocks ≤ length kinds.now }
    ensures { FilledTo walk at heads.now (kind_numbers kinds.now) digits.now message.now word.new result
        × ComesTo walk at heads.now (kind_numbers kinds.now) (suc block) result }
{
    let edge = heads[block + 1] as usize;
    let mut here = fill_head(walk, at, heads, kinds, digits, message, word, block, from);
    while here.stop < edge {
        here = fill_message(message, word, here.stop, here);
        here = fill_burst(walk, at, word, here);
    }
    if edge <= here.at {
        return here;
    }
    fill_message(message, word, edge, here)
}

// The cells at a block's head that are not the message's.
fn fill_head(
    walk: Walk,
    at: Placement,
    heads: &[u16; Layout::MAX_HEADS],
    kinds: &[Kind],
    digits: &[u8],
    message: &[u8],
    word: &mut [u8],
    block: usize,
    from: Filling,
) -> Filling
    requires tables { FilledTo walk at heads.now (kind_numbers kinds.now) digits.now message.now word.old from
        × Enters walk at heads.now (kind_numbers kinds.now) block from }
    requires known { walk.blocks ≤ length kinds.now }
    ensures { FilledTo walk at heads.now (kind_numbers kinds.now) digits.now message.now word.new result
        × HeadPassed walk at heads.now (kind_numbers kinds.now) block result }
{
    let start = from.at;
    match kinds[block] {
        Kind::Fixed => {
            word[start] = 0;
            Filling {
                at: start + 1,
                ..from
            }
        }
        Kind::Index => {
            let len = walk.head_len;
            let spelled = from.indexed * walk.digit_step;
            symbols::copy_few(&mut word[start..], &digits[spelled..], len);
            Filling {
                at: start + len,
                indexed: from.indexed + 1,
                ..from
            }
        }
        Kind::Burst => from,
    }
}

// Cells of the message, up to a position.
fn fill_message(message: &[u8], word: &mut [u8], to: usize, from: Filling) -> Filling
    requires { (from.at ≤ to) × (to ≤ length word.old) × (from.sent + (to - from.at) ≤ length message.now) }
    ensures { MessageFilled message.now word.old word.new to from result }
{
    let start = from.at;
    let sent = from.sent;
    let len = to - start;
    symbols::copy_first(&mut word[start..], &message[sent..], len);
    Filling {
        at: to,
        sent: sent + len,
        ..from
    }
}

// A burst's cells.
fn fill_burst(walk: Walk, at: Placement, word: &mut [u8], from: Filling) -> Filling
    requires { PlacedIn walk at × (from.at + walk.b ≤ length word.old) × (from.passed < walk.m) }
    ensures filled { BurstFilled walk.b word.old word.new from result }
    ensures stop { result.stop ≡ next_start walk.n (starts_in at) result.passed }
{
    let start = from.at;
    symbols::clear_first(&mut word[start..], walk.b);
    let passed = from.passed + 1;
    let stop = crate::next_start(walk, at, passed);
    Filling {
        at: start + walk.b,
        passed,
        stop,
        ..from
    }
}
