// Floats as whole numbers of parts, and back: eighths of a dioptre, halves of a millimetre. Assumes nothing.
ghost use Rattle.std.specs.Prelude.{◌≡◌};
ghost use Rattle.prescription.specs.Fractions.{fraction, count_of};
ghost use Rattle.prescription.specs.Counts.{PowerOfTwo, count_as, size_in, bits_in};
ghost use Rattle.prescription.specs.Stored.{count_in};

// How many parts, `per` of which make one, a float is, where it is a whole number of them, below 32768 in size; a negative one by the bits of a signed 16-bit
// number.
pub fn count_of(x: f64, per: u16) -> Option<u16>
    requires { PowerOfTwo per }
    ensures { count_as result ≡ bits_in (count_of per x) }
{
    if x < 0.0 {
        let size = size_of(-x, per)?;
        return Some(size.wrapping_neg());
    }
    size_of(x, per)
}

// The same of a float that is not negative: its product is cut to a whole number, whose float has to be the one given, bit by bit. So minus zero is
// none, as every other float is.
fn size_of(x: f64, per: u16) -> Option<u16>
    requires { PowerOfTwo per }
    ensures { count_as result ≡ size_in (count_of per x) }
{
    let parts = per as f64;
    let product = x * parts;
    if product > -1.0 && product < 32768.0 {
        let size = std::num::truncating_f64_to_u64(product) as u16;
        let exact = (size as f64) / parts;
        if exact.to_bits() == x.to_bits() {
            return Some(size);
        }
    }
    None
}

// The dioptres of a stored count.
pub fn power_of(bits: u16) -> f64
    ensures { result ≡ fraction 8 (count_in bits) }
{
    f64::from(bits.cast_signed()) / 8.0
}
