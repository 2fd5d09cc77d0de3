// A prescription, and as the text of a job: thirteen bytes, then zeros. Assumes nothing.
ghost use Rattle.std.specs.Prelude.{◌≡◌, ◌+◌, ◌≤◌, length};
ghost use Rattle.refusals.specs.Numbers.{answer_of};
ghost use Rattle.prescription.specs.Counts.{with_eye, stored_text, stored_out};
ghost use Rattle.prescription.specs.Eyes.{eye_of, prescription_of};
ghost use Rattle.prescription.specs.Outcomes.{or_refused, eye_answered, prescription_answered, read_text_out, distanced, written_text, write_text_out};
ghost use Rattle.prescription.specs.Stored.{lens_in, fields_at, prescribed_at};

use crate::counts::count_of;
use crate::eyes::Eye;
use crate::fields;
use crate::fields::StoredEye;
use refusals::Refusal;
use symbols::numbers;

// An eye's bytes in a text, where the pupil distance stands behind both, and how many bytes that makes.
const EYE_LEN: usize = 6;

const DISTANCE_AT: usize = 12;

const STORED_LEN: usize = 13;

// A millimetre in halves.
const HALVES: u16 = 2;

// Both eyes, and the pupil distance in millimetres.
#[derive(Clone, Copy)]
pub struct Prescription {
    pub right: Eye,
    pub left: Eye,
    pub pupil_distance: f64,
}

impl Prescription {
    // The least and the largest pupil distance, in halves of a millimetre.
    pub const MIN_HALVES: u8 = 80;

    pub const MAX_HALVES: u8 = 160;

    // The prescription of a text: thirteen bytes, then zeros. Refusal 16.
    pub fn read_text(text: &[u8]) -> Result<Prescription, Refusal>
        ensures { prescription_answered result ≡ read_text_out text.now }
    {
        if text.len() < STORED_LEN {
            return Err(Refusal::Prescription);
        }
        if !symbols::all_below(&text[STORED_LEN..], 1) {
            return Err(Refusal::Prescription);
        }
        read_stored(text)
    }

    // Stores a prescription that keeps the rules as a text. Refusal 16; the text then keeps what it held.
    pub fn write_text(self, text: &mut [u8]) -> Result<(), Refusal>
        ensures { written_text (answer_of result) text.new ≡ write_text_out self text.old }
    {
        if text.len() < STORED_LEN {
            return Err(Refusal::Prescription);
        }
        let right = fields::stored(self.right).ok_or(Refusal::Prescription)?;
        let left = fields::stored(self.left).ok_or(Refusal::Prescription)?;
        let halves = count_of(self.pupil_distance, HALVES).ok_or(Refusal::Prescription)?;
        write_stored(text, right, left, halves)
    }
}

// The prescription of a text's first thirteen bytes. Refusal 16.
fn read_stored(text: &[u8]) -> Result<Prescription, Refusal>
    requires { 13 ≤ length text.now }
    ensures { prescription_answered result ≡ or_refused prescription_of (prescribed_at text.now) }
{
    let right = eye_at(text, 0)?;
    let left = eye_at(text, EYE_LEN)?;
    with_distance(right, left, text[DISTANCE_AT])
}

// Both eyes with a pupil distance in half millimetres. Refusal 16.
fn with_distance(right: Eye, left: Eye, halves: u8) -> Result<Prescription, Refusal>
    ensures { prescription_answered result ≡ distanced right left halves }
{
    if halves < Prescription::MIN_HALVES || Prescription::MAX_HALVES < halves {
        return Err(Refusal::Prescription);
    }
    Ok(Prescription {
        right,
        left,
        pupil_distance: f64::from(halves) / 2.0,
    })
}

// The eye whose six bytes begin at a position of a text. Refusal 16.
fn eye_at(text: &[u8], at: usize) -> Result<Eye, Refusal>
    requires { at + 6 ≤ length text.now }
    ensures { eye_answered result ≡ or_refused eye_of (lens_in (fields_at text.now at)) }
{
    let kind = text[at];
    let sphere = numbers::two_bytes(text, at + 1);
    let cylinder = numbers::two_bytes(text, at + 3);
    let axis = text[at + 5];
    fields::eye_of(StoredEye {
        kind,
        sphere,
        cylinder,
        axis,
    })
}

// Stores both eyes' fields and a pupil distance in half millimetres. Refusal 16.
fn write_stored(
    text: &mut [u8],
    right: StoredEye,
    left: StoredEye,
    halves: u16,
) -> Result<(), Refusal>
    requires { 13 ≤ length text.old }
    ensures { written_text (answer_of result) text.new ≡ stored_out text.old right left halves }
{
    if halves < (Prescription::MIN_HALVES as u16) || (Prescription::MAX_HALVES as u16) < halves {
        return Err(Refusal::Prescription);
    }
    put_stored(text, right, left, halves as u8);
    Ok(())
}

// Stores both eyes and the pupil distance, and zeros behind them.
fn put_stored(text: &mut [u8], right: StoredEye, left: StoredEye, halves: u8)
    requires { 13 ≤ length text.old }
    ensures { text.new ≡ stored_text (length text.old) right left halves }
{
    symbols::clear(text);
    put_eye(text, 0, right);
    put_eye(text, EYE_LEN, left);
    text[DISTANCE_AT] = halves;
}

// Stores an eye's six bytes from a position of a text on.
fn put_eye(text: &mut [u8], at: usize, eye: StoredEye)
    requires { at + 6 ≤ length text.old }
    ensures { text.new ≡ with_eye text.old at eye }
{
    text[at] = eye.kind;
    text[at + 1..at + 3].copy_from_slice(&eye.sphere.to_be_bytes());
    text[at + 3..at + 5].copy_from_slice(&eye.cylinder.to_be_bytes());
    text[at + 5] = eye.axis;
}
