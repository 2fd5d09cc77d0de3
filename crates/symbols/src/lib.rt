// Lent symbols: tested, cleared and copied. Assumes nothing.
#![tactic(auto)]

ghost use Rattle.std.specs.Prelude.{◌≡◌, ◌&&◌, ℕ, ◌*◌, ◌≤◌, ◌<◌, ltb, length, take, replicate};
ghost use Rattle.combinatorics.specs.Lists.{all_below};

pub mod numbers;

// Whether every symbol is below a bound: otherwise refusal 4.
pub fn all_below(symbols: &[u8], bound: u64) -> bool
    ensures { result ≡ all_below bound symbols.now }
{
    if numbers::BYTE_VALUES <= bound {
        return true;
    }
    if bound == 0 {
        return symbols.len() == 0;
    }
    (largest(symbols) as u64) < bound
}

// The largest symbol, 0 where there is none. The loop has no way out, so that the compiler looks at many symbols at a time.
fn largest(symbols: &[u8]) -> u8
    ensures { (q : ℕ) → 0 < q → ltb result q ≡ all_below q symbols.now }
{
    let mut most: u8 = 0;
    for symbol in symbols {
        most = most.max(*symbol);
    }
    most
}

// Every symbol 0. One symbol goes without a loop. `fill` writes the last symbol by itself: a call and a frame more.
pub fn clear(symbols: &mut [u8])
    ensures { symbols.new ≡ replicate (length symbols.old) 0 }
{
    if symbols.len() == 1 {
        symbols[0] = 0;
        return;
    }
    for symbol in symbols {
        *symbol = 0;
    }
}

// As many of the first symbols as there is room for.
pub fn copy_prefix(to: &mut [u8], from: &[u8])
    requires { length to.old ≤ length from.now }
    ensures { to.new ≡ take (length to.old) from.now }
{
    let len = to.len();
    copy_first(to, from, len);
}

// The first `len` symbols; no caller asks what becomes of those behind them. Each branch has moves of a size that the compiler knows.
pub fn copy_first(to: &mut [u8], from: &[u8], len: usize)
    requires { (len ≤ length to.old) × (len ≤ length from.now) }
    ensures { take len to.new ≡ take len from.now }
{
    if len < QUARTER {
        copy_short(to, from, len);
        return;
    }
    if len <= HALF {
        copy_pair(to, from, len, QUARTER);
        return;
    }
    if len <= MOST {
        copy_pair(to, from, len, HALF);
        return;
    }
    copy_long(to, from, len, MOST);
}

// The same where they are mostly few, as the digits of an index block: fewer branches leave a loop around it more registers.
pub fn copy_few(to: &mut [u8], from: &[u8], len: usize)
    requires { (len ≤ length to.old) × (len ≤ length from.now) }
    ensures { take len to.new ≡ take len from.now }
{
    if len < QUARTER {
        copy_short(to, from, len);
        return;
    }
    copy_long(to, from, len, QUARTER);
}

// The first `len` symbols 0; no caller asks what becomes of those behind them.
pub fn clear_first(to: &mut [u8], len: usize)
    requires { len ≤ length to.old }
    ensures { take len to.new ≡ replicate len 0 }
{
    let zeros = [0u8; HALF];
    if HALF < len {
        clear(&mut to[..len]);
        return;
    }
    copy_first(to, &zeros, len);
}

// The most symbols of one move.
const MOST: usize = 64;

// Half of them.
const HALF: usize = 32;

// A quarter of them.
const QUARTER: usize = 16;

// Fewer than QUARTER.
fn copy_short(to: &mut [u8], from: &[u8], len: usize)
    requires { (len ≤ length to.old) × (len ≤ length from.now) × (len < 16) }
    ensures { take len to.new ≡ take len from.now }
{
    if len < 4 {
        copy_last(to, from, len);
        return;
    }
    if len < 8 {
        copy_pair(to, from, len, 4);
        return;
    }
    copy_pair(to, from, len, 8);
}

// Fewer than 4.
fn copy_last(to: &mut [u8], from: &[u8], len: usize)
    requires { (len ≤ length to.old) × (len ≤ length from.now) × (len < 4) }
    ensures { take len to.new ≡ take len from.now }
{
    if len == 0 {
        return;
    }
    if len == 1 {
        to[0] = from[0];
        return;
    }
    copy_pair(to, from, len, 2);
}

// From `size` symbols to twice as many: the first `size` and the last `size`, which may overlap. So the copy is exact: it needs no test of
// room behind the last, and no loop over a rest.
fn copy_pair(to: &mut [u8], from: &[u8], len: usize, size: usize)
    requires { (size ≤ len) × (len ≤ 2 * size) × (size ≤ 64) × (len ≤ length to.old) × (len ≤ length from.now) }
    ensures { take len to.new ≡ take len from.now }
{
    copy_by(to, from, size);
    let rest = len - size;
    copy_by(&mut to[rest..], &from[rest..], size);
}

// At least `size` symbols: `size` at a time, then the last `size`, some of which may be copied already.
fn copy_long(to: &mut [u8], from: &[u8], len: usize, size: usize)
    requires { (0 < size) × (size ≤ 64) × (size ≤ len) × (len ≤ length to.old) × (len ≤ length from.now) }
    ensures { take len to.new ≡ take len from.now }
{
    let rest = len - size;
    for done in (0..rest).step_by(size) {
        copy_by(&mut to[done..], &from[done..], size);
    }
    copy_by(&mut to[rest..], &from[rest..], size);
}

// The first `size` symbols, at most MOST. They go by way of a local array, so that the compiler need not fear that the two overlap. Where it
// knows the size it makes one move of this: the compiled writer has no such array, and stores each symbol straight into the word. A test
// counts its stores (`writer-stores/test`).
fn copy_by(to: &mut [u8], from: &[u8], size: usize)
    requires { (size ≤ length to.old) × (size ≤ length from.now) × (size ≤ 64) }
    ensures { take size to.new ≡ take size from.now }
{
    let mut room = [0u8; MOST];
    room[..size].copy_from_slice(&from[..size]);
    to[..size].copy_from_slice(&room[..size]);
}
