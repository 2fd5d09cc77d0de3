// Words of the Larsson code, filled and taken apart by the walk over their blocks: sub-block i and the gap behind it are block i. Where R is 0 there is
// nothing to walk. Assumes nothing.
#![tactic(auto)]

ghost use Rattle.std.specs.Prelude.{◌≡◌, ◌≤◌, length};
ghost use Rattle.cells.specs.Cells;
ghost use Rattle.cells.specs.Cells.{pick};
ghost use Rattle.cells.specs.Figures.{max_bursts};
ghost use Rattle.larsson.specs.Writing;
ghost use Rattle.larsson.specs.Writing.{plan};
ghost use Rattle.placements.specs.Bridge.{starts_in};
ghost use Rattle.blocks.specs.Numbers.{kind_numbers};
ghost use Rattle.larsson_words.specs.Walked.{figures_walked, sub_blocks_of, WalkedMessage, WalkedWord};

use blocks::Kind;
use params::Layout;
use placements::Placement;
use stretches::Walk;

// The walk over words of n symbols with m bursts of b, and sub-blocks of R symbols.
pub fn walk_of(n: usize, m: usize, b: usize, sub_len: usize) -> Walk
    requires { m ≤ max_bursts }
    ensures { result ≡ sub_blocks_of n m b sub_len }
{
    Walk {
        n,
        m,
        b,
        blocks: 2 * m + 1,
        head_len: sub_len,
        digit_step: 0,
    }
}

// The word of a placement and a message, from the digits of the placement's rank: each bearer holds the same.
pub fn fill(
    walk: Walk,
    q: u64,
    at: Placement,
    starts: &[u16; Layout::MAX_HEADS],
    kinds: &[Kind],
    digits: &[u8],
    message: &[u8],
    word: &mut [u8],
)
    requires tables { WalkedMessage (figures_walked walk q) walk at starts.now (kind_numbers kinds.now) digits.now message.now word.old }
    requires known { walk.blocks ≤ length kinds.now }
    ensures { word.new ≡ Rattle.larsson.specs.Writing.word (figures_walked walk q) (starts_in at) message.now }
{
    stretches::fill::fill_cells(walk, at, starts, kinds, digits, message, word);
}

// The message of a placement's word.
pub fn take_message(
    walk: Walk,
    q: u64,
    at: Placement,
    starts: &[u16; Layout::MAX_HEADS],
    kinds: &[Kind],
    word: &[u8],
    message: &mut [u8],
)
    requires tables { WalkedWord (figures_walked walk q) walk at starts.now (kind_numbers kinds.now) word.now message.old }
    requires known { walk.blocks ≤ length kinds.now }
    ensures { message.new ≡ pick Rattle.cells.specs.Cells.message (plan (figures_walked walk q) (starts_in at)) word.now }
{
    stretches::taking::take_message(walk, at, starts, kinds, word, message);
}
