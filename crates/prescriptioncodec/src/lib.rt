// Writing and reading prescriptions: a job's number and its prescription in a word, where the table has the job open. Assumes nothing.
#![tactic(auto)]

ghost use Rattle.std.specs.Prelude.{◌≡◌, ◌≤◌, length, replicate};
ghost use Rattle.cells.specs.Figures.{max_word};
ghost use Rattle.refusals.specs.Numbers.{answer_of};
ghost use Rattle.cells.specs.Outcomes.{unwritten};
ghost use Rattle.codes.specs.Bridge.{coding_of};
ghost use Rattle.codes.specs.Given.{coding_in};
ghost use Rattle.placements.specs.Bridge.{held_as};
ghost use Rattle.jobs.specs.Slots.{entries};
ghost use Rattle.payloads.specs.Payload.{payload_in};
ghost use Rattle.jobcodec.specs.Given.{ServesTable, ReadableJob, SpellsJob};
ghost use Rattle.prescription.specs.Eyes.{prescribed_of};
ghost use Rattle.prescriptioncodec.specs.PrescriptionRead.{of_payload, prescription_read_under, read_answered};
ghost use Rattle.prescriptioncodec.specs.PrescriptionWrite.{as_job, prescription_write_under};

use codes::{Figures, WordLayout};
use jobs::JobTable;
use params::{Params, bytes};
use placements::Placement;
use prescription::texts::Prescription;
use refusals::Refusal;
use symbols::numbers::{BYTE_VALUES, NUMBER_BYTES};

// A payload begins with the job number's bytes, and with thirteen more of a prescription it has these.
const MIN_PRESCRIBED: usize = 17;

// No message and no payload is longer than the longest word.
const MAX_LEN: usize = Params::MAX_WORD as usize;

const SHORT_LEN: usize = Params::SHORT_WORD as usize;

// Writes a job's number and its prescription into a word. Refusals in order: 1 2 10 3 5 16 17 12 23 14; the word then keeps what it held.
pub fn prescription_write(
    figures: Figures,
    table: JobTable,
    at: Placement,
    number: u32,
    prescription: Prescription,
    word: &mut [u8],
) -> Result<(), Refusal>
    ensures answer { answer_of result ≡ (prescription_write_under (coding_of figures) (entries table) (held_as at) number prescription word.old).answer }
    ensures word { word.new
        ≡ (prescription_write_under (coding_of figures) (entries table) (held_as at) number prescription word.old).word }
{
    if table.twice() {
        return Err(Refusal::Invalid);
    }
    write_laid(figures.layout()?, table, at, number, prescription, word)
}

// The same for figures that fit. Refusals: 10 3 5 16 17 12 23 14.
fn write_laid(
    layout: WordLayout,
    table: JobTable,
    at: Placement,
    number: u32,
    prescription: Prescription,
    word: &mut [u8],
) -> Result<(), Refusal>
    requires { ServesTable layout (entries table) }
    ensures { unwritten word.new (answer_of result)
        ≡ prescription_write_under (coding_in layout) (entries table) (held_as at) number prescription word.old }
{
    let count = bytes::payload_len(layout.q, layout.message_len);
    if count < jobcodec::MIN_PAYLOAD {
        return Err(Refusal::Payload);
    }
    if at.count as usize != layout.m {
        return Err(Refusal::Length);
    }
    if word.len() != layout.n {
        return Err(Refusal::Length);
    }
    if !at.apart(layout.n as u32, layout.b as u32) {
        return Err(Refusal::Starts);
    }
    if count < MIN_PRESCRIBED {
        return Err(Refusal::Prescription);
    }
    if count <= SHORT_LEN {
        return write_in::<SHORT_LEN>(layout, table, at, number, prescription, count, word);
    }
    write_in::<MAX_LEN>(layout, table, at, number, prescription, count, word)
}

// The same by way of a payload of so many bytes in an array that has room for it: an array is cleared as a whole, and a short one should not pay for a long
// one.
fn write_in<const ROOM: usize>(
    layout: WordLayout,
    table: JobTable,
    at: Placement,
    number: u32,
    prescription: Prescription,
    count: usize,
    word: &mut [u8],
) -> Result<(), Refusal>
    requires { ServesTable layout (entries table) × (17 ≤ count) × (count ≤ ROOM) × (ROOM ≤ max_word) }
    ensures { unwritten word.new (answer_of result)
        ≡ as_job (coding_in layout) (entries table) (held_as at) number count word.old (prescribed_of prescription) }
{
    let mut payload = [0u8; ROOM];
    write_payload(
        layout,
        table,
        at,
        number,
        prescription,
        &mut payload[..count],
        word,
    )
}

// Makes the payload of a number and a prescription, and writes it as a job's.
fn write_payload(
    layout: WordLayout,
    table: JobTable,
    at: Placement,
    number: u32,
    prescription: Prescription,
    payload: &mut [u8],
    word: &mut [u8],
) -> Result<(), Refusal>
    requires { ServesTable layout (entries table) × (17 ≤ length payload.old) }
    ensures { unwritten word.new (answer_of result)
        ≡ as_job (coding_in layout) (entries table) (held_as at) number (length payload.old) word.old (prescribed_of prescription) }
{
    prescription.write_text(&mut payload[NUMBER_BYTES..])?;
    payloads::spell_value(BYTE_VALUES, number as u64, &mut payload[..NUMBER_BYTES]);
    jobcodec::write_laid(layout, table, at, payload, word)
}

// Hands out the number and the prescription of a found word. Refusals in order: 1 2, 10 for too few bytes, those of word read from 3 on (3 4 7 19 8 9 19, by
// the Larsson code 3 4 21 8 9 19), 10, 16, 12 23 14.
pub fn prescription_read(
    figures: Figures,
    table: JobTable,
    word: &[u8],
) -> Result<(u32, Prescription), Refusal>
    ensures { read_answered result ≡ prescription_read_under (coding_of figures) (entries table) word.now }
{
    if table.twice() {
        return Err(Refusal::Invalid);
    }
    read_laid(figures.layout()?, table, word)
}

// The same for figures that fit. Refusals: 10 for too few bytes, those of word read from 3 on, 10, 16, 12 23 14.
fn read_laid(
    layout: WordLayout,
    table: JobTable,
    word: &[u8],
) -> Result<(u32, Prescription), Refusal>
    requires { ServesTable layout (entries table) }
    ensures { read_answered result ≡ prescription_read_under (coding_in layout) (entries table) word.now }
{
    let count = bytes::payload_len(layout.q, layout.message_len);
    if count < jobcodec::MIN_PAYLOAD {
        return Err(Refusal::Payload);
    }
    if layout.message_len <= SHORT_LEN {
        return read_in::<SHORT_LEN>(layout, table, count, word);
    }
    read_in::<MAX_LEN>(layout, table, count, word)
}

// The same with the message, and a payload of so many bytes, in arrays that have room for them.
fn read_in<const ROOM: usize>(
    layout: WordLayout,
    table: JobTable,
    count: usize,
    word: &[u8],
) -> Result<(u32, Prescription), Refusal>
    requires { (layout.message_len ≤ ROOM) × (count ≤ ROOM) × (ROOM ≤ max_word)
        × ReadableJob layout (entries table) (replicate layout.message_len 0) (replicate count 0) }
    ensures { read_answered result ≡ prescription_read_under (coding_in layout) (entries table) word.now }
{
    let mut message = [0u8; ROOM];
    let mut payload = [0u8; ROOM];
    read_message(
        layout,
        table,
        word,
        &mut message[..layout.message_len],
        &mut payload[..count],
    )
}

// The reader goes on only with an accepted word that spells a payload. Refusals: those of word read from 3 on, 10, 16, 12 23 14.
fn read_message(
    layout: WordLayout,
    table: JobTable,
    word: &[u8],
    message: &mut [u8],
    payload: &mut [u8],
) -> Result<(u32, Prescription), Refusal>
    requires { ReadableJob layout (entries table) message.old payload.old }
    ensures { read_answered result ≡ prescription_read_under (coding_in layout) (entries table) word.now }
{
    jobcodec::read_spelled(layout, word, message)?;
    hand_out(table, layout.q, message, payload)
}

// The number and the prescription of the payload that an accepted word's message spells. Refusals: 16, 12 23 14.
fn hand_out(
    table: JobTable,
    q: u64,
    message: &[u8],
    payload: &mut [u8],
) -> Result<(u32, Prescription), Refusal>
    requires { SpellsJob q message.now payload.old }
    ensures { read_answered result ≡ of_payload (entries table) (payload_in q (length message.now) message.now) }
{
    payloads::unspell(q, bytes::byte_width(q), message, payload);
    let prescription = Prescription::read_text(&payload[NUMBER_BYTES..])?;
    let number = payloads::job_number(payload);
    jobcodec::needs_open(table, number)?;
    Ok((number, prescription))
}
