// Placements: which are valid, their rank, the placement of a rank, and the placement of least rank that covers a defect map. Assumes nothing.
#![tactic(auto)]

ghost use Rattle.std.specs.Prelude.{◌≡◌, true, [], ◌+◌, ◌-◌, ◌≤◌, ◌<◌, max, length};
ghost use Rattle.combinatorics.specs.Bursts.{apart, placements, rank_of, starts_of};
ghost use Rattle.combinatorics.specs.Choose.{choose};
ghost use Rattle.combinatorics.specs.Rank.{ways_from};
ghost use Rattle.combinatorics.specs.Stretch.{top, last_end};
ghost use Rattle.cells.specs.Outcomes.{held, defect_at};
ghost use Rattle.cells.specs.Figures.{max_word, max_bursts, max_count};
ghost use Rattle.placements.specs.Bridge.{held_as, covered_as, starts_in, covered_least, cover_within, Rankable, Room};

use params::Params;
use refusals::Refusal;

pub mod bursts;
pub mod starts;

// "A placement is held as six starts and the count in use"; document 02, ticket 11: "Raise .. a placement's starts to eight." Starts past the
// count are 0 in an answer and unread in a call.
#[derive(Clone, Copy, Debug, PartialEq, Eq)]
pub struct Placement {
    pub starts: [u16; Placement::MAX],
    pub count: u32,
}

impl Placement {
    // The most bursts of a placement.
    pub const MAX: usize = Params::MAX_BURSTS as usize;

    // No burst at all: what stands beside a refusal.
    pub fn none() -> Self
        ensures limit { Placement.MAX ≡ max_bursts }
        ensures placement { held_as result ≡ held [] }
    {
        Placement {
            starts: [0; Placement::MAX],
            count: 0,
        }
    }

    // Whether the bursts are disjoint, ascending and within n positions: otherwise refusal 5. Any n and b are served, so sums have 64 bits.
    pub fn apart(self, n: u32, b: u32) -> bool
        requires { self.count ≤ max_bursts }
        ensures { result ≡ apart b n 0 (starts_in self) }
    {
        let count = self.count as usize;
        // One past the bursts so far.
        let mut free: u64 = 0;
        for j in 0..count {
            let s = self.starts[j];
            let start = s as u64;
            if start < free {
                return false;
            }
            free = start + b as u64;
        }
        free <= n as u64
    }

    // The rank: each burst adds the ways to choose as many things as its number out of its reduced start.
    pub fn rank(self, b: u32) -> u64
        requires { Rankable self b }
        ensures { result ≡ rank_of b (starts_in self) }
    {
        let count = self.count as usize;
        let gap = (b - 1) as u64;
        let mut rank: u64 = 0;
        for j in 0..count {
            let s = self.starts[j];
            let before = j as u64;
            let reduced = s as u64 - before * gap;
            rank += binomials::choose(reduced, before + 1);
        }
        rank
    }

    // The placement of m bursts of b among n positions that has this rank. The last burst's reduced start is the largest whose share of
    // the rank is not too much; what is left is the rank of the bursts before it.
    pub fn unrank(n: u32, m: u32, b: u32, rank: u64) -> Self
        requires { Room n m b × (placements n m b ≤ max_count) × (rank < placements n m b) }
        ensures { held_as result ≡ held (starts_of n m b rank) }
    {
        let gap = (b - 1) as u64;
        let mut found = Placement {
            starts: [0; Placement::MAX],
            count: m,
        };
        let mut below = (n - m * b + m) as u64;
        let mut left = rank;
        for i in (0..m as usize).rev() {
            let before = i as u64;
            let last = last_burst(below, before + 1, left);
            left -= last.share;
            let start = last.reduced + before * gap;
            found.starts[i] = start as u16;
            below = last.reduced;
        }
        found
    }
}

// The last of so many bursts: its reduced start, and its share of their rank.
#[derive(Clone, Copy)]
struct LastBurst {
    reduced: u64,
    share: u64,
}

// Its reduced start is the largest number below `below` out of which `number` things can be chosen in at most `rank` ways: a search by halves. One thing can
// be chosen in as many ways as there are things, so there is nothing to search for.
fn last_burst(below: u64, number: u64, rank: u64) -> LastBurst
    requires { (below ≤ max_word) × (1 ≤ number) × (number ≤ max_bursts) × (choose below number ≤ max_count) × (rank < choose below number) }
    ensures reduced { result.reduced ≡ top (ways_from number) below rank }
    ensures share { result.share ≡ choose result.reduced number }
{
    if number == 1 {
        return LastBurst {
            reduced: rank,
            share: binomials::choose(rank, number),
        };
    }
    let mut low: u64 = 0;
    let mut share: u64 = 0;
    let mut high = below;
    while low + 1 < high {
        let middle = low + (high - low) / 2;
        let chosen = binomials::choose(middle, number);
        if chosen <= rank {
            low = middle;
            share = chosen;
        } else {
            high = middle;
        }
    }
    LastBurst {
        reduced: low,
        share,
    }
}

// The placement of least rank whose bursts cover every defect of a map of n bytes, 1 where a position is defective and 0 elsewhere: covering by m bursts of b
// among n positions, whatever lays the strip out. Refusals: 3 4 6.
pub fn cover_within(n: usize, m: usize, b: usize, map: &[u8]) -> Result<Placement, Refusal>
    requires { Room n m b }
    ensures { covered_as result ≡ cover_within n m b map.now }
{
    if map.len() != n {
        return Err(Refusal::Length);
    }
    if !symbols::all_below(map, 2) {
        return Err(Refusal::Symbol);
    }
    least_cover(n, m, b, map)
}

// The placement of m bursts of b that covers every defect of a map of n positions and has the least rank. The map is read once, from the
// right: each burst ends with the last defect that is left, or starts where those before it just have room. Refusal: 6.
fn least_cover(n: usize, m: usize, b: usize, map: &[u8]) -> Result<Placement, Refusal>
    requires { Room n m b × (length map.now ≡ n) }
    ensures { covered_as result ≡ covered_least n m b map.now }
{
    let count = m as u32;
    let mut found = Placement {
        starts: [0; Placement::MAX],
        count,
    };
    let mut start = n;
    let mut end = last_end(map, start);
    for i in (0..m).rev() {
        start = burst_start(end, b, i * b);
        found.starts[i] = start as u16;
        // A defect that lies left of the burst anyway was found before.
        if start < end {
            end = last_end(map, start);
        }
    }
    if end == 0 {
        Ok(found)
    } else {
        Err(Refusal::Uncovered)
    }
}

// One past the last defect below `below`, or 0.
fn last_end(map: &[u8], below: usize) -> usize
    requires { below ≤ length map.now }
    ensures { result ≡ last_end (defect_at map.now) below }
{
    for x in (0..below).rev() {
        if map[x] == 1 {
            return x + 1;
        }
    }
    0
}

// The start of a burst that ends at `end`, but no start before `least`.
fn burst_start(end: usize, b: usize, least: usize) -> usize
    requires { least + b ≤ max_word }
    ensures { result ≡ max (end - b) least }
{
    if least + b <= end { end - b } else { least }
}
