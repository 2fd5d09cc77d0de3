// A placement that was read as bytes, for the reader for C. Inner functions. Assumes nothing.
ghost use Rattle.std.specs.Prelude.{◌≡◌, List, ℕ, ◌*◌, ◌≤◌, length};
ghost use Rattle.cells.specs.Figures.{max_bursts};
ghost use Rattle.placements.specs.Bridge.{starts_in};
ghost use Rattle.decoder.specs.Answer.{number_by, decoded_by};
ghost use Rattle.decoder.specs.Exported.{lent_as, start_bytes, exported_as};
ghost use Rattle.decoder.specs.Reader.{StartsFit};

use crate::Decoded;
use placements::Placement;
use symbols::numbers::BYTE_VALUES;

// What the word reader answered, under any figures: its number, and the placement of an accepted word as bytes.
pub fn put_decoded<E: Copy>(decoded: Decoded<E>, starts: &mut [u8]) -> Result<(), E>
    requires { StartsFit decoded starts.old }
    ensures { (number : E → ℕ) (out : List ℕ) → lent_as (number_by number result) out starts.new
        ≡ exported_as starts.old (decoded_by number decoded out) }
{
    decoded.answer?;
    put_starts(decoded.placement, starts);
    Ok(())
}

// The starts in use as bytes.
pub fn put_starts(at: Placement, bytes: &mut [u8])
    requires { (at.count ≤ max_bursts) × (length bytes.old ≡ 2 * at.count) }
    ensures { bytes.new ≡ start_bytes (starts_in at) }
{
    let count = at.count as usize;
    for j in 0..count {
        let s = at.starts[j];
        let start = s as u64;
        bytes[2 * j] = (start / BYTE_VALUES) as u8;
        bytes[2 * j + 1] = (start % BYTE_VALUES) as u8;
    }
}
