// Arithmetic of IEEE 754 that every layer above shares: the definitions of specs/, the laws of proofs/, the conversion
// of a whole number, and the test for a finite value.
#![tactic(auto)]

ghost use Rattle.std.specs.Prelude.{◌≡◌, pos};
ghost use Rattle.std.specs.Float.{binary64};
ghost use Rattle.std.specs.Float.Ieee.{of_int};
ghost use Rattle.std.specs.Float.Ieee.Scale.{finite};

// Rust's `n as f64`: the binary64 value nearest to n, for every n.
// (Rattle's own `as` stops at 2^53, where it would begin to round.)
pub fn from_u64(n: u64) -> f64
    ensures { result ≡ of_int binary64 (pos n) }
{
    std::num::nearest_u64_to_f64(n)
}

// Whether x is neither a NaN nor an infinity.
#[tactic(auto, using(crate::proofs::Finite::finite_is))]
pub fn is_finite(x: f64) -> bool
    ensures { result ≡ finite x }
{
    f64::is_finite(x)
}

// The same for binary32.
// Kept: two functions, as std has a method for each type; a generic one would be a trait with these two bodies.
#[tactic(auto, using(crate::proofs::Finite::finite_is))]
pub fn is_finite_f32(x: f32) -> bool
    ensures { result ≡ finite x }
{
    f32::is_finite(x)
}
