// What can be found in a cell (document 02, "Cells without a reading"). Assumes nothing.
ghost use Rattle.std.specs.Prelude.{◌≡◌};
ghost use Rattle.cells.specs.Erasures.{found_bound};

use symbols::numbers::BYTE_VALUES;

// The bound of what can be found: q itself is a cell without a reading, where a byte has room for it.
pub fn found_bound(q: u64) -> u64
    ensures { result ≡ found_bound q }
{
    if q < BYTE_VALUES { q + 1 } else { q }
}
