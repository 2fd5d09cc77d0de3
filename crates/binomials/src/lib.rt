// The ways to choose things: every count and rank asks for them here. The table of choices has those that are asked for most. Assumes nothing.
#![tactic(auto)]

ghost use Rattle.std.specs.Prelude.{◌≡◌, ◌*◌, ◌/◌, ◌≤◌, ltb};
ghost use Rattle.combinatorics.specs.Choose.{choose as ways};
ghost use Rattle.cells.specs.Figures.{max_count, count_out, max_word, max_bursts};
ghost use Rattle.binomials.specs.Limits.{max_taken, most_things, counted_as};

// The largest count that is given.
pub const MAX_COUNT: u64 = 9223372036854775807;

// Out of so many things 7, and 8, are chosen in at most MAX_COUNT ways, and out of one more in more ways than that.
const MOST_FOR_7: u64 = 1733;

const MOST_FOR_8: u64 = 887;

// How many are taken by one product: so many factors fit 64 bits.
const MAX_TAKEN: u64 = 5;

// The ways to choose k things out of n, or None where they are more than MAX_COUNT.
pub fn count(n: u64, k: u64) -> Option<u64>
    requires { (n ≤ max_word) × (k ≤ max_bursts) }
    ensures value { counted_as result ≡ count_out (ways n k) }
    ensures limit { MAX_COUNT ≡ max_count }
{
    if too_many(n, k) {
        return None;
    }
    Some(choose(n, k))
}

// The ways to choose k things out of n, where a count can give them: from the table of choices, or worked out where it doesn't have them.
pub fn choose(n: u64, k: u64) -> u64
    requires { (n ≤ max_word) × (k ≤ max_bursts) × (ways n k ≤ max_count) }
    ensures { result ≡ ways n k }
{
    if k == 0 || choices::LAST_CHOSEN < k || choices::LAST_THINGS < n {
        return beyond_table(n, k);
    }
    choices::entry(n, k)
}

// What the table doesn't have: more things than its last, by steps from those that it has; the others worked out.
fn beyond_table(n: u64, k: u64) -> u64
    requires { (n ≤ max_word) × (k ≤ max_bursts) × (ways n k ≤ max_count) }
    ensures { result ≡ ways n k }
{
    if k <= choices::LAST_CHOSEN || choices::LAST_THINGS < n || n < k {
        return worked_out(n, k);
    }
    let six = choices::entry(n, choices::LAST_CHOSEN);
    let seven = scaled(six, n - choices::LAST_CHOSEN, 7);
    if k == 7 {
        return seven;
    }
    scaled(seven, n - 7, 8)
}

// The same worked out: the first few by one product, each further one by a step. It calls itself, so that it is not inlined and leaves
// the loops that look into the table their registers.
pub fn worked_out(n: u64, k: u64) -> u64
    requires { (n ≤ max_word) × (k ≤ max_bursts) × (ways n k ≤ max_count) }
    ensures { result ≡ ways n k }
{
    if n < k {
        return 0;
    }
    if k <= MAX_TAKEN {
        return choose_few(n, k);
    }
    let fewer = k - 1;
    scaled(worked_out(n, fewer), n - fewer, k)
}

// Whether k things are chosen out of n in more than MAX_COUNT ways. Fewer than 7 never are, as no word has enough symbols.
fn too_many(n: u64, k: u64) -> bool
    requires { (n ≤ max_word) × (k ≤ max_bursts) }
    ensures { result ≡ ltb (most_things k) n }
{
    if k == 7 {
        return MOST_FOR_7 < n;
    }
    if k == 8 {
        return MOST_FOR_8 < n;
    }
    false
}

// A product by a quotient, where the product itself may pass 64 bits.
fn scaled(a: u64, b: u64, d: u64) -> u64
    requires { (1 ≤ d) × (d ≤ max_bursts) × (b ≤ max_word) × (a * b / d ≤ max_count) }
    ensures { result ≡ a * b / d }
{
    a / d * b + a % d * b / d
}

// The ways to choose a few things: the ways to take them one after another, by the orders in which the same things come. One division
// for the whole product, because a division takes longest.
fn choose_few(n: u64, k: u64) -> u64
    requires { (n ≤ max_word) × (k ≤ max_taken) × (k ≤ n) }
    ensures { result ≡ ways n k }
{
    let mut taken: u64 = 1;
    let mut orders: u64 = 1;
    for i in 0..k {
        taken *= n - i;
        orders *= i + 1;
    }
    taken / orders
}
