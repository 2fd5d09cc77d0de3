// Words side by side on one strip: laid so, and taken apart again. Assumes nothing.
#![tactic(auto)]

ghost use Rattle.std.specs.Prelude.{◌≡◌, List, ℕ, length};
ghost use Rattle.refusals.specs.Numbers.{answer_of};
ghost use Rattle.codes.specs.Bridge.{coding_of};
ghost use Rattle.codes.specs.Given.{coding_in, Serves};
ghost use Rattle.lanes.specs.Outcomes.{unfilled, rearranged, interleave_under, deinterleave_under};

use codes::{Figures, WordLayout};
use params::found::found_bound;
use refusals::Refusal;

mod tile;
mod transpose;

// The fewest and the most words side by side.
pub const MIN_DEPTH: u32 = 1;

pub const MAX_DEPTH: u32 = 16;

// Words to the strip: `depth` words of n symbols, one after another, so that strip cell t holds symbol t / depth of word t mod depth. Refusals: 1 2 18 3 4.
pub fn interleave(
    figures: Figures,
    depth: u32,
    words: &[u8],
    strip: &mut [u8],
) -> Result<(), Refusal>
    ensures { unfilled strip.new (answer_of result) ≡ interleave_under (coding_of figures) depth words.now strip.old }
{
    interleave_fitting(figures.layout()?, depth, words, strip)
}

// The same for figures that fit. Refusals: 18 3 4.
pub fn interleave_fitting(
    layout: WordLayout,
    depth: u32,
    words: &[u8],
    strip: &mut [u8],
) -> Result<(), Refusal>
    requires { Serves layout }
    ensures { unfilled strip.new (answer_of result) ≡ interleave_under (coding_in layout) depth words.now strip.old }
{
    judged(layout, depth, layout.q, words, strip.len())?;
    transpose::transpose(depth as usize, layout.n, words, strip);
    Ok(())
}

// The strip to words: the same the other way round, of found symbols, which may be q. Refusals: 1 2 18 3 4.
pub fn deinterleave(
    figures: Figures,
    depth: u32,
    strip: &[u8],
    words: &mut [u8],
) -> Result<(), Refusal>
    ensures { unfilled words.new (answer_of result) ≡ deinterleave_under (coding_of figures) depth strip.now words.old }
{
    deinterleave_fitting(figures.layout()?, depth, strip, words)
}

// The same for figures that fit. Refusals: 18 3 4.
pub fn deinterleave_fitting(
    layout: WordLayout,
    depth: u32,
    strip: &[u8],
    words: &mut [u8],
) -> Result<(), Refusal>
    requires { Serves layout }
    ensures { unfilled words.new (answer_of result) ≡ deinterleave_under (coding_in layout) depth strip.now words.old }
{
    judged(layout, depth, found_bound(layout.q), strip, words.len())?;
    transpose::transpose(layout.n, depth as usize, strip, words);
    Ok(())
}

// Whether a depth, a lent buffer whose symbols are to be below a bound, and the room of the other serve. Refusals: 18 3 4.
fn judged(
    layout: WordLayout,
    depth: u32,
    bound: u64,
    from: &[u8],
    room: usize,
) -> Result<(), Refusal>
    requires { Serves layout }
    ensures { (out filled : List ℕ) → length out ≡ room → answer_of result ≡ (rearranged (coding_in layout) depth bound from.now out filled).answer }
{
    if depth < MIN_DEPTH {
        return Err(Refusal::Depth);
    }
    if MAX_DEPTH < depth {
        return Err(Refusal::Depth);
    }
    let len = depth as usize * layout.n;
    if from.len() != len {
        return Err(Refusal::Length);
    }
    if room != len {
        return Err(Refusal::Length);
    }
    if !symbols::all_below(from, bound) {
        return Err(Refusal::Symbol);
    }
    Ok(())
}
