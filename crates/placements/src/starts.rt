// Starts in lent bytes. Inner functions. Assumes nothing.
ghost use Rattle.std.specs.Prelude.{◌≡◌, ◌+◌, ◌*◌, ◌≤◌, length};
ghost use Rattle.cells.specs.Outcomes.{held};
ghost use Rattle.cells.specs.Figures.{max_bursts};
ghost use Rattle.placements.specs.Bridge.{held_as, starts_at};

use crate::Placement;
use symbols::numbers;

// The placement whose m starts stand in the bytes from a position on.
pub fn placement_at(bytes: &[u8], from: usize, m: usize) -> Placement
    requires { (m ≤ max_bursts) × (from + 2 * m ≤ length bytes.now) }
    ensures { held_as result ≡ held (starts_at bytes.now from m) }
{
    let mut found = Placement {
        starts: [0; Placement::MAX],
        count: m as u32,
    };
    for j in 0..m {
        found.starts[j] = numbers::two_bytes(bytes, from + 2 * j);
    }
    found
}
