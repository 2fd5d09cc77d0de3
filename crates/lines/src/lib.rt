// The lines that are printed, put together field by field in a lent line. Assumes nothing.
#![tactic(auto)]

ghost use Rattle.std.specs.Prelude.{◌≡◌, [], ◌∷◌, ◌+◌, ◌*◌, ◌≤◌, length, take, drop};
ghost use Rattle.cells.specs.Figures.{max_word};
ghost use Rattle.text.specs.Text.{decimal, hex, overwrite};
ghost use Rattle.lines.specs.Lines.{space, refusal_line, served_line, stop_line, end_line, max_line, letter_w, letter_r};

use refusals::Refusal;
use symbols::numbers::NUMBER_BYTES;

const SPACE: u8 = b' ';

const LINE_FEED: u8 = b'\n';

// The letter, 0 or the refusal.
pub fn put_refusal(line: &mut [u8], letter: u8, answer: u8) -> usize
    requires { max_line ≤ length line.old }
    ensures line { line.new ≡ overwrite 0 (refusal_line letter answer) line.old }
    ensures len { result ≡ length (refusal_line letter answer) }
{
    let at = put_head(line, letter, answer);
    text::put_byte(line, at, LINE_FEED)
}

// After S, and after L, also T, r, k.
pub fn put_figures(
    line: &mut [u8],
    letter: u8,
    placements: u64,
    tail: u64,
    message_len: u64,
) -> usize
    requires { max_line ≤ length line.old }
    ensures line { line.new
        ≡ overwrite 0 (served_line letter (decimal placements ∷ decimal tail ∷ decimal message_len ∷ [])) line.old }
    ensures len { result ≡ length (served_line letter (decimal placements ∷ decimal tail ∷ decimal message_len ∷ [])) }
{
    let at = put_head(line, letter, Refusal::NONE);
    let at_tail = put_number(line, at, placements);
    let at_len = put_number(line, at_tail, tail);
    let at_end = put_number(line, at_len, message_len);
    text::put_byte(line, at_end, LINE_FEED)
}

// After W the word in hex.
pub fn put_word(line: &mut [u8], word: &[u8]) -> usize
    requires { (max_line ≤ length line.old) × (length word.now ≤ max_word) }
    ensures line { line.new ≡ overwrite 0 (served_line letter_w (hex word.now ∷ [])) line.old }
    ensures len { result ≡ length (served_line letter_w (hex word.now ∷ [])) }
{
    let at = put_head(line, b'W', Refusal::NONE);
    let at_end = put_bytes(line, at, word);
    text::put_byte(line, at_end, LINE_FEED)
}

// After R the number and text in hex.
pub fn put_payload(line: &mut [u8], payload: &[u8]) -> usize
    requires { (max_line ≤ length line.old) × (length payload.now ≤ max_word) × (4 ≤ length payload.now) }
    ensures line { line.new
        ≡ overwrite 0 (served_line letter_r (hex (take 4 payload.now) ∷ hex (drop 4 payload.now) ∷ [])) line.old }
    ensures len { result ≡ length (served_line letter_r (hex (take 4 payload.now) ∷ hex (drop 4 payload.now) ∷ [])) }
{
    let at = put_head(line, b'R', Refusal::NONE);
    let at_text = put_bytes(line, at, &payload[..NUMBER_BYTES]);
    let at_end = put_bytes(line, at_text, &payload[NUMBER_BYTES..]);
    text::put_byte(line, at_end, LINE_FEED)
}

// Prints "stop 11".
pub fn put_stop(line: &mut [u8]) -> usize
    requires { max_line ≤ length line.old }
    ensures line { line.new ≡ overwrite 0 stop_line line.old }
    ensures len { result ≡ length stop_line }
{
    text::put_text(line, 0, b"stop 11\n")
}

// Prints "end".
pub fn put_end(line: &mut [u8]) -> usize
    requires { max_line ≤ length line.old }
    ensures line { line.new ≡ overwrite 0 end_line line.old }
    ensures len { result ≡ length end_line }
{
    text::put_text(line, 0, b"end\n")
}

// The letter, and the answer behind a space; of at most 22 characters.
fn put_head(line: &mut [u8], letter: u8, answer: u8) -> usize
    requires { max_line ≤ length line.old }
    ensures line { line.new ≡ overwrite 0 (letter ∷ space ∷ decimal answer) line.old }
    ensures behind { result ≡ length (letter ∷ space ∷ decimal answer) }
    ensures most { result ≤ 22 }
{
    let at = text::put_byte(line, 0, letter);
    put_number(line, at, answer as u64)
}

// A number behind a space; of at most 21 characters.
fn put_number(line: &mut [u8], at: usize, value: u64) -> usize
    requires { at + 21 ≤ length line.old }
    ensures line { line.new ≡ overwrite at (space ∷ decimal value) line.old }
    ensures behind { result ≡ at + length (space ∷ decimal value) }
    ensures most { result ≤ at + 21 }
{
    let next = text::put_byte(line, at, SPACE);
    text::put_decimal(line, next, value)
}

// Bytes in hex behind a space.
fn put_bytes(line: &mut [u8], at: usize, bytes: &[u8]) -> usize
    requires { at + 1 + 2 * length bytes.now ≤ length line.old }
    ensures line { line.new ≡ overwrite at (space ∷ hex bytes.now) line.old }
    ensures behind { result ≡ at + 1 + 2 * length bytes.now }
{
    let next = text::put_byte(line, at, SPACE);
    text::put_hex(line, next, bytes)
}
