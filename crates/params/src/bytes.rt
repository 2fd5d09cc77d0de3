// Bytes spelled by symbols: how many symbols a byte takes, and how many bytes a message holds. Assumes nothing.
ghost use Rattle.std.specs.Prelude.{◌≡◌, ◌≤◌};
ghost use Rattle.cells.specs.Bytes.{byte_width, payload_len};
ghost use Rattle.cells.specs.Figures.{max_alphabet};

use symbols::numbers::BYTE_VALUES;

// What a byte takes where there are two symbols.
const MAX_BYTE_WIDTH: usize = 8;

// How many symbols a byte takes.
pub fn byte_width(q: u64) -> usize
    requires { q ≤ max_alphabet }
    ensures { result ≡ byte_width q }
{
    let mut values: u64 = 1;
    for width in 0..MAX_BYTE_WIDTH {
        if BYTE_VALUES <= values {
            return width;
        }
        values = values * q;
    }
    MAX_BYTE_WIDTH
}

// How many bytes a message of so many symbols holds.
pub fn payload_len(q: u64, symbols: usize) -> usize
    requires { q ≤ max_alphabet }
    ensures { result ≡ payload_len q symbols }
{
    symbols / byte_width(q)
}
