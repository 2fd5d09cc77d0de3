// The parameters of a code word (document 01's figures), and "figures alone": the layout that they give, or the refusal. Assumes nothing.
#![tactic(auto)]

ghost use Rattle.std.specs.Prelude.{◌≡◌, true, ◌*◌, ◌≤◌, ◌<◌};
ghost use Rattle.cells.specs.Figures.{params, in_range, max_count, placement_count_of};
ghost use Rattle.construction_a.specs.Figures.{parts as parts_of};
ghost use Rattle.construction_a.specs.Outcomes.{figures_number, figures_out};
ghost use Rattle.cells.specs.Cut.{block_head, block_with};
ghost use Rattle.params.specs.Bridge.{given};
ghost use Rattle.params.specs.Answer.{blocks_figured, LaidIn};
ghost use Rattle.refusals.specs.Numbers.{answer_of};
ghost use Rattle.params.specs.Given.{figures_of, Shaped, HeadsOf};

use refusals::Refusal;

pub mod bytes;
pub mod cut;
pub mod found;
pub mod heads;
pub mod long;
pub mod tail;

// The figures as a caller passes them: any numbers.
#[derive(Clone, Copy, Debug, PartialEq, Eq)]
pub struct Params {
    pub n: u32,
    pub q: u32,
    pub m: u32,
    pub b: u32,
}

// What the index blocks spell: the rank of the placement (Construction A), or how far into its part the one burst ends (Construction B).
#[derive(Clone, Copy, Debug, PartialEq, Eq)]
pub enum Spells {
    Rank,
    EndOffset,
}

// The figures of a word that can be laid out, and document 01's p, T, r and k, in this order, which follow from them; Construction B has one burst
// and three parts, which are its blocks. Positions and lengths are usize, values u64.
#[derive(Clone, Copy, Debug, PartialEq, Eq)]
pub struct Layout {
    pub n: usize,
    pub q: u64,
    pub m: usize,
    pub b: usize,
    pub parts: usize,
    pub placement_count: u64,
    pub index_tail: usize,
    pub message_len: usize,
    pub spells: Spells,
}

impl Params {
    pub const MIN_WORD: u32 = 3;

    pub const MAX_WORD: u32 = 4096;

    // Strips of up to so many symbols are lent a shorter local array: an array is cleared as a whole, and a short strip should not pay for a long one.
    pub const SHORT_WORD: u32 = 1024;

    pub const MIN_ALPHABET: u32 = 2;

    pub const MAX_ALPHABET: u32 = 256;

    pub const MIN_BURSTS: u32 = 1;

    pub const MAX_BURSTS: u32 = 8;

    pub const MIN_BURST_LEN: u32 = 1;

    pub const MIN_PARTS: u32 = 3;

    // The layout that the figures give, whatever numbers come. Refusals in order: 1 for a figure out of range, 2 for figures that don't fit.
    pub fn figures(n: u32, q: u32, m: u32, b: u32) -> Result<Layout, Refusal>
        ensures answer { blocks_figured result ≡ figures_out (params n q m b) }
        ensures layout { LaidIn (params n q m b) result }
        ensures number { answer_of result ≡ figures_number (figures_out (params n q m b)) }
    {
        let given = Params { n, q, m, b };
        if !given.in_range() {
            return Err(Refusal::Invalid);
        }
        if (n as u64) < (m as u64) * (b as u64) {
            return Err(Refusal::Unfit);
        }
        given.laid_out()
    }

    // Whether each figure is in range.
    pub fn in_range(self) -> bool
        ensures { result ≡ in_range (given self) }
    {
        if self.n < Params::MIN_WORD {
            return false;
        }
        if Params::MAX_WORD < self.n {
            return false;
        }
        if self.q < Params::MIN_ALPHABET {
            return false;
        }
        if Params::MAX_ALPHABET < self.q {
            return false;
        }
        if self.m < Params::MIN_BURSTS {
            return false;
        }
        if Params::MAX_BURSTS < self.m {
            return false;
        }
        if self.b < Params::MIN_BURST_LEN {
            return false;
        }
        true
    }

    // The layout of figures in range whose bursts a word can hold. Refusal: 2.
    fn laid_out(self) -> Result<Layout, Refusal>
        requires { (in_range (given self) ≡ true) × (self.m * self.b ≤ self.n) }
        ensures answer { blocks_figured result ≡ figures_out (given self) }
        ensures layout { LaidIn (given self) result }
    {
        let things = (self.n - self.m * self.b + self.m) as u64;
        match binomials::count(things, self.m as u64) {
            Some(placements) => self.counted(placements),
            None => Err(Refusal::Unfit),
        }
    }

    // The same for figures whose placements are counted. Refusal: 2.
    fn counted(self, count: u64) -> Result<Layout, Refusal>
        requires { (in_range (given self) ≡ true) × (self.m * self.b ≤ self.n) × (count ≡ placement_count_of (given self)) × (count ≤ max_count) }
        ensures answer { blocks_figured result ≡ figures_out (given self) }
        ensures layout { LaidIn (given self) result }
    {
        let n = self.n as usize;
        let q = self.q as u64;
        let m = self.m as usize;
        let b = self.b as usize;
        let parts = self.parts();
        let block_min = n / (parts * m);
        let index_tail = tail::least_tail(q, m, count, block_min);
        if block_min <= index_tail {
            return Err(Refusal::Unfit);
        }
        if block_min - index_tail < b {
            return Err(Refusal::Unfit);
        }
        let message_len = n - m * (b + parts + index_tail - 1);
        Ok(Layout {
            n,
            q,
            m,
            b,
            parts,
            placement_count: count,
            index_tail,
            message_len,
            spells: Spells::Rank,
        })
    }

    // How many parts the word is cut into.
    fn parts(self) -> usize
        ensures { result ≡ parts_of (given self) }
    {
        if self.m < Params::MIN_PARTS {
            return Params::MIN_PARTS as usize;
        }
        self.m as usize
    }
}

impl Layout {
    // The most blocks that a word can have.
    pub const MAX_BLOCKS: usize = (Params::MAX_BURSTS * Params::MAX_BURSTS) as usize;

    // Room for the first position of every block, and for the word's length behind them.
    pub const MAX_HEADS: usize = Layout::MAX_BLOCKS + 1;

    // The first position of block k, counted through the word, from the array of all; the word's length for the number behind the last block's.
    pub fn block_head(self, heads: &[u16; Layout::MAX_HEADS], k: usize) -> usize
        requires { Shaped self × HeadsOf (figures_of self) heads.now × (k ≤ self.parts * self.m) }
        ensures { result ≡ block_head self.n self.parts self.m k }
    {
        let head = heads[k];
        head as usize
    }

    // The block that has position x, found by a walk from block `first` on, which starts no later: divisions cost more.
    pub fn block_from(self, heads: &[u16; Layout::MAX_HEADS], first: usize, x: usize) -> usize
        requires { Shaped self × HeadsOf (figures_of self) heads.now × (first < self.parts * self.m)
            × (block_head self.n self.parts self.m first ≤ x) × (x < self.n) }
        ensures { result ≡ block_with self.n self.parts self.m x }
    {
        let mut k = first;
        while heads[k + 1] as usize <= x {
            k += 1;
        }
        k
    }
}
