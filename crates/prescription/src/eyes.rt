// An eye in memory: transposing and the spherical equivalent. Assumes nothing.
ghost use Rattle.std.specs.Prelude.{◌≡◌, ◌≤◌};
ghost use Rattle.prescription.specs.Kinds.{byte_of, kind_of_eye, NamesKind};
ghost use Rattle.prescription.specs.Laws.{RestoresBits};
ghost use Rattle.prescription.specs.Lens.{turned as turned_of};
ghost use Rattle.prescription.specs.Outcomes.{eye_answered, power_answered, transpose_out, equivalent_out};

use crate::fields;
use refusals::Refusal;

// An eye: plano, a sphere with its power, or a toric. Powers are dioptres, an axis is in degrees.
#[derive(Clone, Copy)]
pub enum Eye {
    Plano,
    Sphere(f64),
    Toric {
        sphere: f64,
        cylinder: f64,
        axis: u8,
    },
}

// What an eye is, without its data; the byte of each is that of a text.
#[derive(Clone, Copy, Debug, PartialEq, Eq)]
pub enum Kind {
    Plano,
    Sphere,
    Toric,
}

impl From<Kind> for u8 {
    ghost from_gives = { λ kind byte. byte ≡ byte_of kind };

    fn from(kind: Kind) -> u8 {
        match kind {
            Kind::Plano => 0,
            Kind::Sphere => 1,
            Kind::Toric => 2,
        }
    }
}

// The kind of a byte. Refusal 16.
impl TryFrom<u8> for Kind {
    type Error = Refusal;

    ghost try_from_gives = { NamesKind };

    fn try_from(byte: u8) -> Result<Kind, Refusal> {
        match byte {
            0 => Ok(Kind::Plano),
            1 => Ok(Kind::Sphere),
            2 => Ok(Kind::Toric),
            _ => Err(Refusal::Prescription),
        }
    }
}

impl Eye {
    pub fn kind(self) -> Kind
        ensures { result ≡ kind_of_eye self }
    {
        match self {
            Eye::Plano => Kind::Plano,
            Eye::Sphere(_) => Kind::Sphere,
            Eye::Toric { .. } => Kind::Toric,
        }
    }

    // The same lens written with the other sign of its cylinder. Refusal 16.
    pub fn transpose(self) -> Result<Eye, Refusal>
        ensures answer { eye_answered result ≡ transpose_out self }
        ensures bits { RestoresBits self result }
    {
        fields::stored(self).ok_or(Refusal::Prescription)?;
        match self {
            Eye::Plano => Ok(Eye::Plano),
            Eye::Sphere(power) => Ok(Eye::Sphere(power)),
            Eye::Toric {
                sphere,
                cylinder,
                axis,
            } => {
                Ok(Eye::Toric {
                    sphere: sphere + cylinder,
                    cylinder: -cylinder,
                    axis: turned(axis),
                })
            }
        }
    }

    // The sphere and half the cylinder, in dioptres. Refusal 16.
    pub fn spherical_equivalent(self) -> Result<f64, Refusal>
        ensures { power_answered result ≡ equivalent_out self }
    {
        fields::stored(self).ok_or(Refusal::Prescription)?;
        match self {
            Eye::Plano => Ok(0.0),
            Eye::Sphere(power) => Ok(power),
            Eye::Toric {
                sphere,
                cylinder,
                ..
            } => Ok(sphere + cylinder * 0.5),
        }
    }
}

// An axis turned by a quarter.
fn turned(axis: u8) -> u8
    requires { axis ≤ 180 }
    ensures { result ≡ turned_of axis }
{
    if 90 < axis { axis - 90 } else { axis + 90 }
}
