//! Words as sets of bits, and powers of two as floats and as dimensions.
ghost use Rattle.std.specs.Prelude.{◌≡◌};
ghost use Rattle.kernels.specs.Bits.{odd_ones, highest_bit, bit_at, without_bit, exp2, dimension};

/// Whether the set bits of a word are odd in number.
pub fn is_odd_popcount(value: u64) -> bool
    ensures { result ≡ odd_ones value }
{
    value.count_ones() % 2 == 1
}

/// The place of the highest set bit of a word, and 0 for the word 0.
#[tactic(auto, unfolding(crate::specs::Bits::highest_bit))]
pub fn highest_set_bit(value: u64) -> u64
    ensures { result ≡ highest_bit value }
{
    if value == 0 {
        return 0;
    }
    63 - u64::from(value.leading_zeros())
}

/// The bit of a word at a place, 0 or 1, and 0 past the word's end.
#[tactic(auto, using(crate::proofs::Laws::no_bit_from))]
pub fn bit_at(value: u64, place: u64) -> u64
    ensures { result ≡ bit_at value place }
{
    if 64 <= place {
        return 0;
    }
    (value >> place) % 2
}

/// The word without its bit at a place.
pub fn without_bit(value: u64, place: u64) -> u64
    ensures { result ≡ without_bit value place }
{
    if bit_at(value, place) == 0 {
        return value;
    }
    value - (1 << place)
}

/// The float that is exactly 2 to the k, and the infinity past the largest such float.
pub fn exact_exp2(k: u64) -> f64
    ensures { result ≡ exp2 k }
{
    if 1023 < k {
        return f64::INFINITY;
    }
    f64::from_bits((k + 1023) * 0x0010_0000_0000_0000)
}

/// The number of amplitudes of k coordinates: 2 to the k below the limit, where a word holds it.
#[tactic(auto, unfolding(crate::specs::Bits::dimension))]
pub fn active_length(k: u64, limit: u64) -> Option<u64>
    ensures { result ≡ dimension limit k }
{
    if limit <= k || 64 <= k {
        return None;
    }
    Some(1 << k)
}
