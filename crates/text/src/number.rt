// A number's decimal digits at the start of a lent array. Assumes nothing.
ghost use Rattle.std.specs.Prelude.{◌≡◌, ◌+◌, ◌≤◌, ◌<◌, length, take};
ghost use Rattle.text.specs.Text.{decimal};
ghost use Rattle.text.specs.Digits.{last_digits, IsDigitCount};

use crate::ZERO;

// 20 digits hold any number; answers how many it takes.
pub fn decimal(value: u64, digits: &mut [u8; 20]) -> usize
    ensures digits { take result digits.new ≡ decimal value }
    ensures count { (result ≡ length (decimal value)) × (result ≤ 20) }
{
    let count = digit_count(value);
    put_last_digits(digits, count, value);
    count
}

// How many digits a number takes, at least one.
fn digit_count(value: u64) -> usize
    ensures { IsDigitCount value result }
{
    let mut count: usize = 1;
    let mut rest = value / 10;
    while rest > 0 {
        rest /= 10;
        count += 1;
    }
    count
}

// Puts the last digits of a number, so many, at the start.
fn put_last_digits(digits: &mut [u8], count: usize, value: u64)
    requires { count ≤ length digits.old }
    ensures { take count digits.new ≡ last_digits count value }
{
    let mut rest = value;
    for i in (0..count).rev() {
        digits[i] = digit(rest % 10);
        rest /= 10;
    }
}

fn digit(value: u64) -> u8
    requires { value < 10 }
    ensures { result ≡ 48 + value }
{
    ZERO + value as u8
}
