// The figures of Construction B, one long burst in a word of three parts, and the layout that they give, or the refusal. Assumes nothing.
ghost use Rattle.std.specs.Prelude.{◌≡◌, true};
ghost use Rattle.construction_b.specs.Figures.{long_params, in_range};
ghost use Rattle.cells.specs.Outcomes.{figures_under};
ghost use Rattle.construction_b.specs.Outcomes.{coding};
ghost use Rattle.params.specs.Bridge.{given_long};
ghost use Rattle.params.specs.Answer.{blocks_figured, LongLaidIn};

use crate::{Layout, Params, Spells, tail};
use refusals::Refusal;

// The figures as a caller passes them: any numbers.
#[derive(Clone, Copy, Debug, PartialEq, Eq)]
pub struct LongParams {
    pub n: u32,
    pub q: u32,
    pub b: u32,
}

const PARTS: usize = Params::MIN_PARTS as usize;

impl LongParams {
    // The layout that the figures give, whatever numbers come. Refusals in order: 1 for a figure out of range, 2 for figures that don't fit.
    pub fn figures(n: u32, q: u32, b: u32) -> Result<Layout, Refusal>
        ensures answer { blocks_figured result ≡ figures_under (coding (long_params n q b)) }
        ensures layout { LongLaidIn (long_params n q b) result }
    {
        let base = Params { n, q, m: 1, b };
        if !base.in_range() {
            return Err(Refusal::Invalid);
        }
        let given = LongParams { n, q, b };
        given.laid_out()
    }

    // The same for figures in range. Refusal: 2.
    fn laid_out(self) -> Result<Layout, Refusal>
        requires { in_range (given_long self) ≡ true }
        ensures answer { blocks_figured result ≡ figures_under (coding (given_long self)) }
        ensures layout { LongLaidIn (given_long self) result }
    {
        let n = self.n as usize;
        let b = self.b as usize;
        let block_min = n / PARTS;
        if block_min < b {
            return Err(Refusal::Unfit);
        }
        let q = self.q as u64;
        let offsets = (n + 2) / PARTS;
        let index_tail = tail::least_tail(q, 1, offsets as u64, block_min);
        if block_min <= index_tail {
            return Err(Refusal::Unfit);
        }
        let placements = n - b + 1;
        Ok(Layout {
            n,
            q,
            m: 1,
            b,
            parts: PARTS,
            placement_count: placements as u64,
            index_tail,
            message_len: n - b - index_tail - 2,
            spells: Spells::EndOffset,
        })
    }
}
