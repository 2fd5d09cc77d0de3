// An eye's four fields in a text, and the rules that they keep. Assumes nothing.
ghost use Rattle.std.specs.Prelude.{◌≡◌};
ghost use Rattle.prescription.specs.Counts.{stored_as, stored_of, toric_keeps};
ghost use Rattle.prescription.specs.Eyes.{lens_of, eye_of};
ghost use Rattle.prescription.specs.Lens.{in_power_range};
ghost use Rattle.prescription.specs.Outcomes.{or_refused, eye_answered};
ghost use Rattle.prescription.specs.Stored.{count_in, lens_in};

use crate::counts::{count_of, power_of};
use crate::eyes::{Eye, Kind};
use refusals::Refusal;

// A dioptre in eighths.
const EIGHTHS: u16 = 8;

// An eye's four fields; sphere and cylinder are the bits of signed counts of eighths.
#[derive(Clone, Copy)]
pub struct StoredEye {
    pub kind: u8,
    pub sphere: u16,
    pub cylinder: u16,
    pub axis: u8,
}

impl StoredEye {
    // The largest power, of either sign, and the largest axis.
    pub const MAX_EIGHTHS: u16 = 240;

    pub const MAX_AXIS: u8 = 180;
}

// The four fields of an eye that keeps the rules.
pub fn stored(eye: Eye) -> Option<StoredEye>
    ensures { stored_as result ≡ stored_of (lens_of eye) }
{
    match eye {
        Eye::Plano => Some(StoredEye {
            kind: u8::from(Kind::Plano),
            sphere: 0,
            cylinder: 0,
            axis: 0,
        }),
        Eye::Sphere(power) => stored_sphere(power),
        Eye::Toric {
            sphere,
            cylinder,
            axis,
        } => stored_toric(sphere, cylinder, axis),
    }
}

// The fields of a sphere that keeps the rules.
fn stored_sphere(power: f64) -> Option<StoredEye>
    ensures { stored_as result ≡ stored_of (lens_of (Eye.Sphere power)) }
{
    let bits = count_of(power, EIGHTHS)?;
    if bits == 0 || !in_range(bits) {
        return None;
    }
    Some(StoredEye {
        kind: u8::from(Kind::Sphere),
        sphere: bits,
        cylinder: 0,
        axis: 0,
    })
}

// The fields of a toric that keeps the rules.
fn stored_toric(sphere: f64, cylinder: f64, axis: u8) -> Option<StoredEye>
    ensures { stored_as result ≡ stored_of (lens_of (Eye.Toric sphere cylinder axis)) }
{
    let sphere_count = count_of(sphere, EIGHTHS)?;
    let cylinder_count = count_of(cylinder, EIGHTHS)?;
    let sum_count = count_of(sphere + cylinder, EIGHTHS)?;
    if !toric_keeps(sphere_count, sum_count, cylinder_count, axis) {
        return None;
    }
    Some(StoredEye {
        kind: u8::from(Kind::Toric),
        sphere: sphere_count,
        cylinder: cylinder_count,
        axis,
    })
}

// Whether a toric's fields keep the rules; `sum` are the bits of sphere plus cylinder.
fn toric_keeps(sphere: u16, sum: u16, cylinder: u16, axis: u8) -> bool
    ensures { result ≡ toric_keeps sphere sum cylinder axis }
{
    in_range(sphere) && in_range(sum) && cylinder != 0 && 1 <= axis && axis <= StoredEye::MAX_AXIS
}

// Whether the bits are those of a count within −240 to 240.
fn in_range(bits: u16) -> bool
    ensures { result ≡ in_power_range (count_in bits) }
{
    bits.cast_signed().unsigned_abs() <= StoredEye::MAX_EIGHTHS
}

// The eye of four fields that keep the rules, otherwise 16.
pub fn eye_of(stored: StoredEye) -> Result<Eye, Refusal>
    ensures { eye_answered result ≡ or_refused eye_of (lens_in stored) }
{
    let StoredEye {
        kind,
        sphere,
        cylinder,
        axis,
    } = stored;
    match Kind::try_from(kind)? {
        Kind::Plano if sphere == 0 && cylinder == 0 && axis == 0 => Ok(Eye::Plano),
        Kind::Sphere if cylinder == 0 && axis == 0 => kept(Eye::Sphere(power_of(sphere))),
        Kind::Toric => kept(Eye::Toric {
            sphere: power_of(sphere),
            cylinder: power_of(cylinder),
            axis,
        }),
        _ => Err(Refusal::Prescription),
    }
}

// An eye as it is where it keeps the rules, otherwise 16.
fn kept(eye: Eye) -> Result<Eye, Refusal>
    ensures { eye_answered result ≡ or_refused (λ _. eye) (lens_of eye) }
{
    stored(eye).ok_or(Refusal::Prescription)?;
    Ok(eye)
}
