// The Larsson code's word writer, and what fills the word. Assumes nothing.
#![tactic(auto)]

ghost use Rattle.std.specs.Prelude.{◌≡◌};
ghost use Rattle.refusals.specs.Numbers.{answer_of};
ghost use Rattle.cells.specs.Outcomes.{encode_under};
ghost use Rattle.larsson.specs.Outcomes.{coding};
ghost use Rattle.placements.specs.Bridge.{held_as};
ghost use Rattle.larsson_params.specs.Given.{larsson_figures_of, LarssonLayoutFits};

use encoder::may_write::may_write;
use larsson_params::LarssonLayout;
use placements::Placement;
use refusals::Refusal;

mod fill;

// Word write for figures that fit: the word of a placement and of a message of k symbols, into the lent word of n. Refusals: 3 5 4.
pub fn encode_fitting(
    layout: LarssonLayout,
    at: Placement,
    message: &[u8],
    word: &mut [u8],
) -> Result<(), Refusal>
    requires { LarssonLayoutFits layout }
    ensures answer { answer_of result ≡ (encode_under (coding (larsson_figures_of layout)) (held_as at) message.now word.old).answer }
    ensures word { word.new ≡ (encode_under (coding (larsson_figures_of layout)) (held_as at) message.now word.old).word }
{
    let walk = larsson_words::walk_of(layout.n, layout.m, layout.b, layout.sub_len);
    may_write(walk, layout.q, layout.message_len, at, message, word.len())?;
    fill::fill(layout, at, message, word);
    Ok(())
}
