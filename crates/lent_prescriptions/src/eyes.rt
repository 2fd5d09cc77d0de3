// An eye as numbers: its kind, its powers in dioptres and its axis in degrees. Inner functions of transposing, the spherical equivalent and
// prescriptions for other languages. Assumes nothing.
ghost use Rattle.std.specs.Prelude.{◌≡◌};
ghost use Rattle.refusals.specs.Numbers.{answer_of};
ghost use Rattle.lent_prescriptions.specs.Eyes.{is_plus_zero, eye_from, eye_kind, eye_sphere, eye_cylinder, eye_axis, powers_lent, transpose_lent, power_lent};
ghost use Rattle.lent_prescriptions.specs.Eyes.{equivalent_lent};

use prescription::eyes::{Eye, Kind};
use refusals::Refusal;

// How many marks and powers an eye has.
const EYE_LEN: usize = 2;

// Transposes an eye, and puts the answer's kind and axis into `marks`, its sphere and cylinder into `powers`. Refusals: 3 16.
pub fn transpose(eye: Eye, marks: &mut [u8], powers: &mut [f64]) -> u8
    ensures { powers_lent marks.new powers.new result ≡ transpose_lent eye marks.old powers.old }
{
    refusals::answer(put_transposed(eye, marks, powers))
}

// The same by the refusal itself.
fn put_transposed(eye: Eye, marks: &mut [u8], powers: &mut [f64]) -> Result<(), Refusal>
    ensures { powers_lent marks.new powers.new (answer_of result) ≡ transpose_lent eye marks.old powers.old }
{
    if marks.len() != EYE_LEN || powers.len() != EYE_LEN {
        return Err(Refusal::Length);
    }
    let transposed = eye.transpose()?;
    marks[0] = kind_of(transposed);
    marks[1] = axis_of(transposed);
    powers[0] = sphere_of(transposed);
    powers[1] = cylinder_of(transposed);
    Ok(())
}

// Puts the spherical equivalent of an eye into `power`. Refusals: 3 16.
pub fn spherical_equivalent(eye: Eye, power: &mut [f64]) -> u8
    ensures { power_lent power.new result ≡ equivalent_lent eye power.old }
{
    refusals::answer(put_equivalent(eye, power))
}

// The same by the refusal itself.
fn put_equivalent(eye: Eye, power: &mut [f64]) -> Result<(), Refusal>
    ensures { power_lent power.new (answer_of result) ≡ equivalent_lent eye power.old }
{
    if power.len() != 1 {
        return Err(Refusal::Length);
    }
    power[0] = eye.spherical_equivalent()?;
    Ok(())
}

// The eye that four values are. Values that are none are taken as a sphere of power 0, which the rules refuse.
pub fn eye_from(kind: u8, sphere: f64, cylinder: f64, axis: u8) -> Eye
    ensures { result ≡ eye_from kind sphere cylinder axis }
{
    match Kind::try_from(kind) {
        Ok(Kind::Plano) if is_plus_zero(sphere) && is_plus_zero(cylinder) && axis == 0 =>
            Eye::Plano,
        Ok(Kind::Sphere) if is_plus_zero(cylinder) && axis == 0 => Eye::Sphere(sphere),
        Ok(Kind::Toric) => Eye::Toric {
            sphere,
            cylinder,
            axis,
        },
        _ => Eye::Sphere(0.0),
    }
}

// A NaN has no bits of its own, so that they are asked for only of a number.
fn is_plus_zero(x: f64) -> bool
    ensures { result ≡ is_plus_zero x }
{
    x == 0.0 && x.to_bits() == 0
}

// The four values of an eye.
pub fn kind_of(eye: Eye) -> u8
    ensures { result ≡ eye_kind eye }
{
    u8::from(eye.kind())
}

pub fn axis_of(eye: Eye) -> u8
    ensures { result ≡ eye_axis eye }
{
    match eye {
        Eye::Plano | Eye::Sphere(_) => 0,
        Eye::Toric { axis, .. } => axis,
    }
}

pub fn sphere_of(eye: Eye) -> f64
    ensures { result ≡ eye_sphere eye }
{
    match eye {
        Eye::Plano => 0.0,
        Eye::Sphere(power) => power,
        Eye::Toric { sphere, .. } => sphere,
    }
}

pub fn cylinder_of(eye: Eye) -> f64
    ensures { result ≡ eye_cylinder eye }
{
    match eye {
        Eye::Plano | Eye::Sphere(_) => 0.0,
        Eye::Toric { cylinder, .. } => cylinder,
    }
}
