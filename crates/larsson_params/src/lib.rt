// The figures of the Larsson code (document 02, "The older trays"), and "figures alone": the layout that they give, or the refusal. Assumes nothing.
#![tactic(auto)]

ghost use Rattle.std.specs.Prelude.{◌≡◌, true, ◌*◌, ◌≤◌};
ghost use Rattle.cells.specs.Outcomes.{figures_under};
ghost use Rattle.cells.specs.Figures.{params, in_range, max_count, placement_count_of};
ghost use Rattle.larsson.specs.Outcomes.{coding};
ghost use Rattle.params.specs.Bridge.{given as figures_of};
ghost use Rattle.larsson_params.specs.Answer.{larsson_figured_as, LarssonLaidIn};

use params::{Params, cut, tail};
use refusals::Refusal;

pub mod starts;

// The figures of a word that can be laid out, and what follows from them: T, R (the symbols of a sub-block), the symbols of all the gaps, and k.
// Positions and lengths are usize, values u64.
#[derive(Clone, Copy, Debug, PartialEq, Eq)]
pub struct LarssonLayout {
    pub n: usize,
    pub q: u64,
    pub m: usize,
    pub b: usize,
    pub placement_count: u64,
    pub sub_len: usize,
    pub gap_total: usize,
    pub message_len: usize,
}

// The layout that the figures give, whatever numbers come. Refusals in order: 1 for a figure out of range, 2 for figures that don't fit.
pub fn figures(n: u32, q: u32, m: u32, b: u32) -> Result<LarssonLayout, Refusal>
    ensures answer { larsson_figured_as result ≡ figures_under (coding (params n q m b)) }
    ensures layout { LarssonLaidIn (params n q m b) result }
{
    let given = Params { n, q, m, b };
    if !given.in_range() {
        return Err(Refusal::Invalid);
    }
    if (n as u64) < (m as u64) * (b as u64) {
        return Err(Refusal::Unfit);
    }
    laid_out(given)
}

// The layout of figures in range whose bursts a word can hold. Refusal: 2.
fn laid_out(given: Params) -> Result<LarssonLayout, Refusal>
    requires { (in_range (figures_of given) ≡ true) × (given.m * given.b ≤ given.n) }
    ensures answer { larsson_figured_as result ≡ figures_under (coding (figures_of given)) }
    ensures layout { LarssonLaidIn (figures_of given) result }
{
    let things = (given.n - given.m * given.b + given.m) as u64;
    match binomials::count(things, given.m as u64) {
        Some(placements) => counted(given, placements),
        None => Err(Refusal::Unfit),
    }
}

// The same for figures whose placements are counted: the sub-blocks have to fit in the word, and a burst may touch one of them. Refusal: 2.
fn counted(given: Params, count: u64) -> Result<LarssonLayout, Refusal>
    requires { (in_range (figures_of given) ≡ true) × (given.m * given.b ≤ given.n) × (count ≡ placement_count_of (figures_of given)) × (count ≤ max_count) }
    ensures answer { larsson_figured_as result ≡ figures_under (coding (figures_of given)) }
    ensures layout { LarssonLaidIn (figures_of given) result }
{
    let n = given.n as usize;
    let q = given.q as u64;
    let m = given.m as usize;
    let b = given.b as usize;
    let sub_len = tail::least_factors(1, q, count, n);
    if n / (2 * m + 1) < sub_len {
        return Err(Refusal::Unfit);
    }
    let gap_total = n - (2 * m + 1) * sub_len;
    if cut::piece_len(gap_total, 2 * m, 0) + 1 < b {
        return Err(Refusal::Unfit);
    }
    Ok(LarssonLayout {
        n,
        q,
        m,
        b,
        placement_count: count,
        sub_len,
        gap_total,
        message_len: n - m * b - (m + 1) * sub_len,
    })
}
