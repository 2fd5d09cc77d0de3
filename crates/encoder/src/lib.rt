// The word writer of both constructions: the rank's digits, and the walk that fills the word. Assumes nothing.
#![tactic(auto)]

ghost use Rattle.std.specs.Prelude.{◌≡◌};
ghost use Rattle.refusals.specs.Numbers.{answer_of};
ghost use Rattle.cells.specs.Outcomes.{encode_under};
ghost use Rattle.params.specs.Given.{blocks_coding, BlocksServe};
ghost use Rattle.placements.specs.Bridge.{held_as};

use crate::may_write::may_write;
use params::Layout;
use placements::Placement;
use refusals::Refusal;

pub mod digits;
mod fill;
pub mod may_write;
mod value;

// Word write for figures that fit: the word of a placement and of a message of k symbols, into the lent word of n. Refusals: 3 5 4.
pub fn encode_fitting(
    layout: Layout,
    at: Placement,
    message: &[u8],
    word: &mut [u8],
) -> Result<(), Refusal>
    requires { BlocksServe layout }
    ensures answer { answer_of result ≡ (encode_under (blocks_coding layout) (held_as at) message.now word.old).answer }
    ensures word { word.new ≡ (encode_under (blocks_coding layout) (held_as at) message.now word.old).word }
{
    let walk = stretches::walk_of(layout);
    may_write(walk, layout.q, layout.message_len, at, message, word.len())?;
    fill::fill(layout, at, message, word);
    Ok(())
}
