// Figures alone for programs in other languages, whichever code's they are. Inner functions. Assumes nothing.
ghost use Rattle.std.specs.Prelude.{◌≡◌};
ghost use Rattle.refusals.specs.Numbers.{answer_of};
ghost use Rattle.codes.specs.Bridge.{coding_of};
ghost use Rattle.lent.specs.Figures.{figures_lent, figures_lent_under};

use codes::Figures;
use params::bytes;
use refusals::Refusal;

// T, r, k and K.
const FIGURES: usize = 4;

// T, r (the Larsson code's R), k and K. Refusals: 1 2 3.
pub fn figures(figures: Figures, out: &mut [u64]) -> u8
    ensures { figures_lent result out.new ≡ figures_lent_under (coding_of figures) out.old }
{
    refusals::answer(put_figures(figures, out))
}

// The same as a Result.
fn put_figures(figures: Figures, out: &mut [u64]) -> Result<(), Refusal>
    ensures { figures_lent (answer_of result) out.new ≡ figures_lent_under (coding_of figures) out.old }
{
    let layout = figures.layout()?;
    if out.len() != FIGURES {
        return Err(Refusal::Length);
    }
    out.copy_from_slice(&[
        layout.placement_count(),
        layout.index_tail() as u64,
        layout.message_len as u64,
        bytes::payload_len(layout.q, layout.message_len) as u64,
    ]);
    Ok(())
}
