// Filling a word: what its blocks' kinds and the digits of its index blocks are, and then the walk over its cells. Assumes nothing.
ghost use Rattle.std.specs.Prelude.{◌≡◌};
ghost use Rattle.placements.specs.Bridge.{starts_in};
ghost use Rattle.params.specs.Given.{blocks_coding, BlocksServe};
ghost use Rattle.encoder.specs.Fill.{PlacedMessage};

use crate::{digits, value};
use params::Layout;
use params::heads::put_heads;
use placements::Placement;

// The word of a placement and a message.
pub fn fill(layout: Layout, at: Placement, message: &[u8], word: &mut [u8])
    requires { BlocksServe layout × PlacedMessage layout at message.now word.old }
    ensures { word.new ≡ (blocks_coding layout).codec.encode (starts_in at) message.now }
{
    let mut heads = [0u16; Layout::MAX_HEADS];
    put_heads(&mut heads, layout);
    let kinds = blocks::kinds_of(layout, &heads, at);
    let value = value::index_value(layout, at);
    let digits = digits::spelled(layout.q, layout.m, layout.index_tail, value);
    let count = layout.m * (layout.index_tail + 1);
    stretches::fill::fill_cells(
        stretches::walk_of(layout),
        at,
        &heads,
        &kinds,
        &digits[..count],
        message,
        word,
    );
}
