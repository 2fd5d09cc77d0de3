// Payloads: bytes spelled into the symbols of a message, and read back. Inner functions of job writing and job reading: what they ask for is tested
// there. Assumes nothing.
#![tactic(auto)]

ghost use Rattle.std.specs.Prelude.{◌≡◌, true, ◌≤◌, length, replicate};
ghost use Rattle.cells.specs.Digits.{plain, spell, value};
ghost use Rattle.payloads.specs.Payload.{job_number, message_of, payload_in, spells_payload};
ghost use Rattle.payloads.specs.Given.{Measured, Spellable, EnoughSymbols};

use symbols::numbers::{BYTE_VALUES, NUMBER_BYTES};

// The largest value of a byte.
const MAX_BYTE: u64 = 255;

// The width at which a byte is its own symbol, so that a payload is copied and nothing is left over.
const COPIED_WIDTH: usize = 1;

// The message that spells a payload: `width` symbols for each byte, then leftovers 0.
pub fn spell_payload(q: u64, width: usize, payload: &[u8], message: &mut [u8])
    requires { Measured q width (length payload.now) message.old }
    ensures { message.new ≡ message_of q (length message.old) payload.now }
{
    if width == COPIED_WIDTH {
        symbols::copy_prefix(message, payload);
        return;
    }
    spell_bytes(q, width, payload, message);
}

// The same for any width, byte by byte.
fn spell_bytes(q: u64, width: usize, payload: &[u8], message: &mut [u8])
    requires { Measured q width (length payload.now) message.old }
    ensures { message.new ≡ message_of q (length message.old) payload.now }
{
    for (i, byte) in payload.iter().enumerate() {
        let at = i * width;
        spell_byte(q, *byte, &mut message[at..at + width]);
    }
    let spelled = payload.len() * width;
    symbols::clear(&mut message[spelled..]);
}

// One byte.
fn spell_byte(q: u64, byte: u8, symbols: &mut [u8])
    requires { Spellable q byte (length symbols.old) }
    ensures { symbols.new ≡ spell q (replicate (length symbols.old) plain) byte }
{
    spell_value(q, byte as u64, symbols);
}

// A number that so many symbols can spell, most significant symbol first, made from the right by quotient and remainder.
pub fn spell_value(q: u64, value: u64, symbols: &mut [u8])
    requires { Spellable q value (length symbols.old) }
    ensures { symbols.new ≡ spell q (replicate (length symbols.old) plain) value }
{
    let mut left = value;
    for i in (0..symbols.len()).rev() {
        symbols[i] = (left % q) as u8;
        left /= q;
    }
}

// Whether a message spells a payload of `count` bytes: otherwise refusal 10.
pub fn spells(q: u64, width: usize, count: usize, message: &[u8]) -> bool
    requires { Measured q width count message.now }
    ensures { result ≡ spells_payload q (length message.now) message.now }
{
    if width == COPIED_WIDTH {
        return true;
    }
    spells_bytes(q, width, count, message)
}

// The same for any width, byte by byte.
fn spells_bytes(q: u64, width: usize, count: usize, message: &[u8]) -> bool
    requires { Measured q width count message.now }
    ensures { result ≡ spells_payload q (length message.now) message.now }
{
    for i in 0..count {
        let at = i * width;
        if MAX_BYTE < spelled_value(q, width, &message[at..]) {
            return false;
        }
    }
    let spelled = count * width;
    symbols::all_below(&message[spelled..], 1)
}

// The payload that a message spells.
pub fn unspell(q: u64, width: usize, message: &[u8], payload: &mut [u8])
    requires { Measured q width (length payload.old) message.now × (spells_payload q (length message.now) message.now ≡ true) }
    ensures { payload.new ≡ payload_in q (length message.now) message.now }
{
    if width == COPIED_WIDTH {
        symbols::copy_prefix(payload, message);
        return;
    }
    unspell_bytes(q, width, message, payload);
}

// The same for any width, byte by byte.
fn unspell_bytes(q: u64, width: usize, message: &[u8], payload: &mut [u8])
    requires { Measured q width (length payload.old) message.now × (spells_payload q (length message.now) message.now ≡ true) }
    ensures { payload.new ≡ payload_in q (length message.now) message.now }
{
    for (i, byte) in payload.iter_mut().enumerate() {
        let at = i * width;
        *byte = spelled_value(q, width, &message[at..]) as u8;
    }
}

// The job number: the first four bytes, high byte first.
pub fn job_number(payload: &[u8]) -> u32
    requires { 4 ≤ length payload.now }
    ensures { result ≡ job_number payload.now }
{
    spelled_value(BYTE_VALUES, NUMBER_BYTES, payload) as u32
}

// The job number of the payload that a message spells, so that nothing is stored before its job is known to be open.
pub fn number_in(q: u64, width: usize, count: usize, message: &[u8]) -> u32
    requires { Measured q width count message.now × (spells_payload q (length message.now) message.now ≡ true) × (4 ≤ count) }
    ensures { result ≡ job_number (payload_in q (length message.now) message.now) }
{
    let mut number: u64 = 0;
    for i in 0..NUMBER_BYTES {
        let at = i * width;
        let byte = spelled_value(q, width, &message[at..]);
        number = number * BYTE_VALUES + byte;
    }
    number as u32
}

// What the first `width` symbols spell, most significant first. Whatever bytes stand there, eight of them stay below 2^64.
fn spelled_value(q: u64, width: usize, symbols: &[u8]) -> u64
    requires { EnoughSymbols q width symbols.now }
    ensures { result ≡ value q (replicate width plain) symbols.now }
{
    let mut value: u64 = 0;
    for symbol in &symbols[..width] {
        value = value * q + *symbol as u64;
    }
    value
}
