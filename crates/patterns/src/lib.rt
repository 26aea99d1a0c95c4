// Floats by their bit patterns, NaN included, for programs that read and write them.
// Rattle's to_bits and from_bits are undefined at a NaN; here all NaNs are one, as in the contracts.
// Kept: a function for each format, since each is one call of std, and a trait over both would be longer than the four.
#![tactic(auto)]

ghost use Rattle.std.specs.Prelude.{◌≡◌};
ghost use Rattle.std.specs.Float.{binary32, binary64};
ghost use Rattle.std.specs.Float.Ieee.{of_bits, to_bits};

// The pattern of x. A NaN's is the quiet one without a sign.
pub fn f32_bits(x: f32) -> u32
    ensures { result ≡ to_bits binary32 x }
{
    std::num::f32_to_bits_with_nan(x)
}

// The pattern of x. A NaN's is the quiet one without a sign.
pub fn f64_bits(x: f64) -> u64
    ensures { result ≡ to_bits binary64 x }
{
    std::num::f64_to_bits_with_nan(x)
}

// The value of a pattern.
pub fn f32_of(bits: u32) -> f32
    ensures { result ≡ of_bits binary32 bits }
{
    std::num::f32_from_bits_with_nan(bits)
}

// The value of a pattern.
pub fn f64_of(bits: u64) -> f64
    ensures { result ≡ of_bits binary64 bits }
{
    std::num::f64_from_bits_with_nan(bits)
}
