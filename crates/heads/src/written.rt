// What the heads of the index blocks hold: whether all of it can be read, and the value that it spells, by sums that stop at the count of placements,
// so that none passes 64 bits. Assumes nothing.
ghost use Rattle.std.specs.Prelude.{◌≡◌, ◌+◌, ◌*◌, ◌≤◌, ◌<◌, min, take};
ghost use Rattle.cells.specs.Digits.{span, value, places};
ghost use Rattle.combinatorics.specs.Lists.{all_below};
ghost use Rattle.params.specs.Given.{figures_of, HeadsOf};
ghost use Rattle.heads.specs.Written.{first_symbols_in, written_in, OpenHeads, LeadsIn, plain_places};

use params::Layout;
use placements::Placement;
use symbols::numbers::BYTE_VALUES;

// The value, or the count of placements where that is less: then it is refusal 8. The most significant digit comes first.
pub fn written_value(
    layout: Layout,
    heads: &[u16; Layout::MAX_HEADS],
    word: &[u8],
    blocks: [u8; Placement::MAX],
) -> u64
    requires { OpenHeads layout word.now blocks × HeadsOf (figures_of layout) heads.now }
    ensures { result ≡ min (written_in layout word.now (take layout.m blocks)) layout.placement_count }
{
    let cap = layout.placement_count;
    let mut value: u64 = 0;
    for j in 0..layout.m {
        let block = blocks[j] as usize;
        let head = layout.block_head(heads, block);
        value = with_block(value, layout.q, layout.index_tail, &word[head..], cap);
    }
    value
}

// Whether the first r + 1 symbols of each index block are below q: otherwise refusal 19.
pub fn heads_below(
    layout: Layout,
    heads: &[u16; Layout::MAX_HEADS],
    word: &[u8],
    blocks: [u8; Placement::MAX],
) -> bool
    requires { OpenHeads layout word.now blocks × HeadsOf (figures_of layout) heads.now }
    ensures { result ≡ all_below layout.q (first_symbols_in layout word.now (take layout.m blocks)) }
{
    for j in 0..layout.m {
        let number = blocks[j];
        let head = layout.block_head(heads, number as usize);
        let end = head + layout.index_tail + 1;
        if !symbols::all_below(&word[head..end], layout.q) {
            return false;
        }
    }
    true
}

// A value with the digits of one block behind it: the lead digit, which is stored plus 1, and `tail` plain ones.
fn with_block(high: u64, q: u64, tail: usize, block: &[u8], cap: u64) -> u64
    requires { LeadsIn q tail block.now }
    ensures { result ≡ min (high * span q (places 1 tail) + value q (places 1 tail) block.now) cap }
{
    let lead = block[0] as u64;
    let value = with_digit(high, q - 1, lead - 1, cap);
    with_digits(value, q, &block[1..tail + 1], cap)
}

// A value with plain digits behind it, the most significant first, or the cap where that is less.
pub fn with_digits(high: u64, q: u64, digits: &[u8], cap: u64) -> u64
    requires { (2 ≤ q) × (high ≤ cap) }
    ensures { result ≡ min (high * span q (plain_places digits.now) + value q (plain_places digits.now) digits.now) cap }
{
    let mut value = high;
    for i in 0..digits.len() {
        let digit = digits[i] as u64;
        value = with_digit(value, q, digit, cap);
    }
    value
}

// A value with one digit behind it, or the cap where that is less. Small values are multiplied at once; of others a division tells them apart before
// anything is multiplied.
fn with_digit(high: u64, radix: u64, digit: u64, cap: u64) -> u64
    requires { 0 < radix }
    ensures { result ≡ min (high * radix + digit) cap }
{
    if high <= SMALL && radix <= BYTE_VALUES && digit <= BYTE_VALUES {
        let sum = high * radix + digit;
        if cap <= sum {
            return cap;
        }
        return sum;
    }
    if cap <= digit {
        return cap;
    }
    if (cap - digit) / radix < high {
        return cap;
    }
    high * radix + digit
}

// So much by a byte's values, and one byte more, fits 64 bits.
const SMALL: u64 = 36028797018963968;
