// The search for the number of symbols that spell so many values, by products that stop at the count, so that none passes 64 bits.
// Assumes nothing.
ghost use Rattle.std.specs.Prelude.{◌≡◌, ◌*◌, ◌^◌, ◌≤◌, min, leb};
ghost use Rattle.combinatorics.specs.Stretch.{first};
ghost use Rattle.cells.specs.Figures.{least_tail};

// The least number of further symbols, below a limit, for which so many index blocks spell at least `count` values; the limit where none is.
pub fn least_tail(q: u64, blocks: usize, count: u64, limit: usize) -> usize
    requires { 1 ≤ q }
    ensures { result ≡ least_tail q blocks count limit }
{
    let step = capped_power(q, blocks, count);
    let values = capped_power(q - 1, blocks, count);
    least_factors(values, step, count, limit)
}

// The least number of factors `step`, below a limit, by which `start` reaches `count`; the limit where none is.
pub fn least_factors(start: u64, step: u64, count: u64, limit: usize) -> usize
    ensures { result ≡ first limit 0 (λ x. leb count (start * step ^ x)) }
{
    let mut values = capped_product(start, 1, count);
    for r in 0..limit {
        if count <= values {
            return r;
        }
        values = capped_product(values, step, count);
    }
    limit
}

// The power, or the cap where that is less.
fn capped_power(base: u64, times: usize, cap: u64) -> u64
    ensures { result ≡ min (base ^ times) cap }
{
    let mut power = capped_product(1, 1, cap);
    for i in 0..times {
        power = capped_product(power, base, cap);
    }
    power
}

// The product, or the cap where that is less. A division tells them apart before anything is multiplied.
fn capped_product(a: u64, b: u64, cap: u64) -> u64
    ensures { result ≡ min (a * b) cap }
{
    if b == 0 {
        return 0;
    }
    if cap / b < a {
        return cap;
    }
    a * b
}
