// The digits of a rank, as they stand at the heads of the index blocks. Assumes nothing.
ghost use Rattle.std.specs.Prelude.{◌≡◌, List, ℕ, suc, ◌+◌, ◌*◌, ◌≤◌, ◌<◌, length, get_or, take};
ghost use Rattle.cells.specs.Digits.{Place, plain, spell, places};
ghost use Rattle.cells.specs.Figures.{max_alphabet};
ghost use Rattle.encoder.specs.Digits.{max_digits, SpellableRank, SpelledFrom};

// Room for the digits of a rank.
pub const MAX_DIGITS: usize = 128;

// The stored digits of a value over m blocks of one lead place and `tail` plain ones, made from the right by quotient and remainder. A lead place's
// digit is below q − 1 and stored plus 1.
pub fn spelled(q: u64, m: usize, tail: usize, value: u64) -> [u8; MAX_DIGITS]
    requires { SpellableRank q m tail value }
    ensures { take (m * suc tail) result ≡ spell q (places m tail) value }
{
    let mut digits = [0u8; MAX_DIGITS];
    let mut left = value;
    for block in (0..m).rev() {
        let first = block * (tail + 1);
        let high = put_plain(&mut digits, q, left, first + 1, tail);
        digits[first] = (high % (q - 1) + 1) as u8;
        left = high / (q - 1);
    }
    digits
}

// The digits of `count` plain places from a position on, made from the right; what is left of the value for the places before them.
fn put_plain(digits: &mut [u8; MAX_DIGITS], q: u64, value: u64, from: usize, count: usize) -> u64
    requires { (2 ≤ q) × (q ≤ max_alphabet) × (from + count ≤ max_digits) × (length digits.old ≡ max_digits) }
    ensures size { length digits.new ≡ max_digits }
    ensures spelled { (ps : List Place) (v : ℕ) → length ps ≤ max_digits → from + count ≤ length ps
        → ((j : ℕ) → j < count → get_or ps (from + j) plain ≡ plain)
        → SpelledFrom q ps v (from + count) value digits.old → SpelledFrom q ps v from result digits.new }
{
    let mut left = value;
    for j in (0..count).rev() {
        digits[from + j] = (left % q) as u8;
        left /= q;
    }
    left
}
