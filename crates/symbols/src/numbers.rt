// Numbers in lent bytes, high byte first. Inner functions. Assumes nothing.
ghost use Rattle.std.specs.Prelude.{◌≡◌, ◌+◌, ◌*◌, ◌≤◌, length, get_or};

// How many values a byte has.
pub const BYTE_VALUES: u64 = 256;

// How many bytes a job number takes.
pub const NUMBER_BYTES: usize = 4;

// The number in the two bytes from a position on.
pub fn two_bytes(bytes: &[u8], at: usize) -> u16
    requires { at + 2 ≤ length bytes.now }
    ensures { result ≡ get_or bytes.now at 0 * 256 + get_or bytes.now (at + 1) 0 }
{
    u16::from_be_bytes([bytes[at], bytes[at + 1]])
}
