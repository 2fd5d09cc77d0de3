// Lines of text, put together piece by piece: each function overwrites a lent line from a position on and answers the position behind. Assumes nothing.
#![tactic(auto)]

ghost use Rattle.std.specs.Prelude.{◌≡◌, true, [], ◌∷◌, map, ◌+◌, ◌-◌, ◌*◌, ◌≤◌, ◌<◌, length, take};
ghost use Rattle.combinatorics.specs.Lists.{all_below};
ghost use Rattle.text.specs.Text.{decimal, hex_digit, hex, overwrite};
ghost use Rattle.text.specs.Nibbles.{nibbles_of, nibbles};

mod number;

// The first of the figures, and of the letters.
const ZERO: u8 = b'0';

const CAPITAL_A: u8 = b'A';

// One character.
pub fn put_byte(line: &mut [u8], at: usize, byte: u8) -> usize
    requires { at + 1 ≤ length line.old }
    ensures line { line.new ≡ overwrite at (byte ∷ []) line.old }
    ensures behind { result ≡ at + 1 }
{
    line[at] = byte;
    at + 1
}

// A text as it stands.
pub fn put_text(line: &mut [u8], at: usize, text: &[u8]) -> usize
    requires { at + length text.now ≤ length line.old }
    ensures line { line.new ≡ overwrite at text.now line.old }
    ensures behind { result ≡ at + length text.now }
{
    let behind = at + text.len();
    line[at..behind].copy_from_slice(text);
    behind
}

// A number in decimal; 20 characters hold any.
pub fn put_decimal(line: &mut [u8], at: usize, value: u64) -> usize
    requires { at + length (decimal value) ≤ length line.old }
    ensures line { line.new ≡ overwrite at (decimal value) line.old }
    ensures behind { result ≡ at + length (decimal value) }
{
    let mut digits = [0u8; 20];
    let count = number::decimal(value, &mut digits);
    put_text(line, at, &digits[..count])
}

// Bytes in hex, two capitals for each.
pub fn put_hex(line: &mut [u8], at: usize, bytes: &[u8]) -> usize
    requires { at + 2 * length bytes.now ≤ length line.old }
    ensures line { line.new ≡ overwrite at (hex bytes.now) line.old }
    ensures behind { result ≡ at + 2 * length bytes.now }
{
    let done = put_hex_chunks(line, at, bytes);
    put_hex_chunk(line, at + 2 * done, &bytes[done..]);
    at + 2 * bytes.len()
}

// How many bytes go at a time. With fewer the compiler no longer sees that it can put 16 digits in one move.
const CHUNK: usize = 64;

// Whole chunks of bytes in hex, until less than one is left; the number of bytes.
fn put_hex_chunks(line: &mut [u8], at: usize, bytes: &[u8]) -> usize
    requires { at + 2 * length bytes.now ≤ length line.old }
    ensures line { line.new ≡ overwrite at (hex (take result bytes.now)) line.old }
    ensures rest { (result ≤ length bytes.now) × (length bytes.now - result < 64) }
{
    let chunks = bytes.len() / CHUNK;
    for i in 0..chunks {
        let done = i * CHUNK;
        put_hex_chunk(line, at + 2 * done, &bytes[done..done + CHUNK]);
    }
    chunks * CHUNK
}

// At most a chunk of bytes in hex: nibbles first, by way of a local array, then the digit of each.
fn put_hex_chunk(line: &mut [u8], at: usize, bytes: &[u8])
    requires { (length bytes.now ≤ 64) × (at + 2 * length bytes.now ≤ length line.old) }
    ensures { line.new ≡ overwrite at (hex bytes.now) line.old }
{
    let mut room = [0u8; 2 * CHUNK];
    let len = put_nibbles(&mut room, 0, bytes);
    put_digits(line, at, &room[..len]);
}

// The values of each byte's two digits.
fn put_nibbles(line: &mut [u8], at: usize, bytes: &[u8]) -> usize
    requires { at + 2 * length bytes.now ≤ length line.old }
    ensures line { line.new ≡ overwrite at (nibbles bytes.now) line.old }
    ensures behind { result ≡ at + 2 * length bytes.now }
    ensures below { all_below 16 (nibbles bytes.now) ≡ true }
{
    let mut behind = at;
    for byte in bytes {
        behind = put_nibbles_of(line, behind, *byte);
    }
    behind
}

fn put_nibbles_of(line: &mut [u8], at: usize, byte: u8) -> usize
    requires { at + 2 ≤ length line.old }
    ensures line { line.new ≡ overwrite at (nibbles_of byte) line.old }
    ensures behind { result ≡ at + 2 }
    ensures below { all_below 16 (nibbles_of byte) ≡ true }
{
    let next = put_byte(line, at, byte / 16);
    put_byte(line, next, byte % 16)
}

fn put_digits(line: &mut [u8], at: usize, values: &[u8])
    requires { (at + length values.now ≤ length line.old) × (all_below 16 values.now ≡ true) }
    ensures { line.new ≡ overwrite at (map hex_digit values.now) line.old }
{
    for (i, value) in values.iter().enumerate() {
        line[at + i] = hex_digit(*value);
    }
}

// One sum: of a case between two the compiler works out both.
fn hex_digit(digit: u8) -> u8
    requires { digit < 16 }
    ensures { result ≡ hex_digit digit }
{
    ZERO + digit + letters_on(digit)
}

// How much further on than behind the figures the letters stand.
fn letters_on(digit: u8) -> u8
    requires { digit < 16 }
    ensures { (48 + digit + result ≡ hex_digit digit) × (result ≤ 7) }
{
    if digit < 10 {
        0
    } else {
        CAPITAL_A - (ZERO + 10)
    }
}
