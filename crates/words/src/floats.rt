//! Floats as their bits. A NaN has one pattern, and each pattern of one is read as the one NaN.
ghost use Rattle.std.specs.Prelude.{◌≡◌};
ghost use Rattle.std.specs.Float.{binary64};
ghost use Rattle.std.specs.Float.Ieee.{of_bits};
ghost use Rattle.words.specs.Words.{bits_word};

/// The binary64 value that the bits stand for; each NaN pattern is the one NaN.
pub fn float_of(bits: u64) -> f64
    ensures { result ≡ of_bits binary64 bits }
{
    if 0x7ff0_0000_0000_0000 < bits % 0x8000_0000_0000_0000 {
        f64::NAN
    } else {
        f64::from_bits(bits)
    }
}

/// The bits of a float. A NaN has one pattern.
pub fn float_bits(x: f64) -> u64
    ensures { result ≡ bits_word x }
{
    if x.is_nan() {
        0x7ff8_0000_0000_0000
    } else {
        x.to_bits()
    }
}
