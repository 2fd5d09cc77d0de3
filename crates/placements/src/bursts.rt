// The positions that the bursts of a placement have. Inner functions. Assumes nothing.
ghost use Rattle.std.specs.Prelude.{◌≡◌, ◌^◌, ◌≤◌, ◌<◌, length};
ghost use Rattle.combinatorics.specs.Bursts.{in_burst, covers};
ghost use Rattle.cells.specs.Erasures.{erased_at};
ghost use Rattle.cells.specs.Figures.{max_bursts};
ghost use Rattle.placements.specs.Bridge.{starts_in, burst_has, differ_at, WithinWord};

use crate::Placement;

// Whether every symbol of a word that is q or more lies in a burst: what stands before, between and behind the bursts is below q.
pub fn cover_erasures(at: Placement, b: u32, q: u64, word: &[u8]) -> bool
    requires { WithinWord at b word.now }
    ensures { result ≡ covers (length word.now) b (erased_at q word.now) (starts_in at) }
{
    let count = at.count as usize;
    let mut from: usize = 0;
    for j in 0..count {
        let s = at.starts[j];
        let start = s as usize;
        if !symbols::all_below(&word[from..start], q) {
            return false;
        }
        from = start + b as usize;
    }
    symbols::all_below(&word[from..], q)
}

// Whether two words of one length differ only inside the bursts.
pub fn cover_differences(at: Placement, b: u32, word: &[u8], other: &[u8]) -> bool
    requires { (at.count ≤ max_bursts) × (length other.now ≡ length word.now) }
    ensures { result ≡ covers (length word.now) b (differ_at word.now other.now) (starts_in at) }
{
    for x in 0..word.len() {
        if word[x] != other[x] {
            if !in_burst(at, b, x as u64) {
                return false;
            }
        }
    }
    true
}

// Whether a burst has the position.
pub fn in_burst(at: Placement, b: u32, x: u64) -> bool
    requires { at.count ≤ max_bursts }
    ensures { result ≡ in_burst b (starts_in at) x }
{
    let count = at.count as usize;
    for j in 0..count {
        let s = at.starts[j];
        let start = s as u64;
        if has(start, b, x) {
            return true;
        }
    }
    false
}

// Whether the burst from `start` on has the position.
fn has(start: u64, b: u32, x: u64) -> bool
    requires { start < 2 ^ 16 }
    ensures { result ≡ burst_has b start x }
{
    if x < start {
        return false;
    }
    x < start + b as u64
}
