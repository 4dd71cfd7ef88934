// Doubles from bit patterns and back, for every pattern and every double. A value does not say which
// NaN it is: so every NaN's pattern is read as the one NaN, and that one is always written alike.
#![tactic(auto)]

ghost use Rattle.std.specs.Prelude.{◌≡◌};
ghost use Rattle.bits.specs.Pattern.{of_pattern, to_pattern};

// What the NaN is written as.
const NAN: u64 = 0x7FF8_0000_0000_0000;

// Infinity's pattern. Those above it, the sign left aside, are the NaNs'.
const INFINITY: u64 = 0x7FF0_0000_0000_0000;

// The weight of the sign.
const SIGN: u64 = 0x8000_0000_0000_0000;

// The double of a bit pattern.
// Laws: RoundTrip.written_read, RoundTrip.read-written.
// Ruled out: of 3FF0000000000000: 2; of 7FF0000000000001: infinity, since it is a NaN's.
#[tactic(auto, using(std::proofs::lemmas::Float::not_nan_f64_bits))]
pub fn from_pattern(bits: u64) -> f64
    ensures { result ≡ of_pattern bits }
{
    if INFINITY < bits % SIGN {
        return f64::NAN;
    }
    f64::from_bits(bits)
}

// The bit pattern of a double.
// Laws: RoundTrip.read-written, RoundTrip.written_read.
// Ruled out: of 1: 3FF0000000000001; of the NaN: 7FFC000000000000.
#[tactic(auto, unfolding(crate::specs::Pattern::to_pattern))]
pub fn pattern(x: f64) -> u64
    ensures { result ≡ to_pattern x }
{
    if x.is_nan() { NAN } else { x.to_bits() }
}
