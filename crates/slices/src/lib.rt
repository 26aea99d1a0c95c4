// Small loops over lent slices that every layer above shares: filling with zeros, and the checks of values.
#![tactic(auto)]

mod scan;

ghost use Rattle.std.specs.Prelude.{◌≡◌, length, replicate};
ghost use Rattle.error.specs.Names.{slice_number};
ghost use Rattle.error.specs.Numbers.{completed, outcome};
ghost use Rattle.ieee.specs.Sum.{plus_zero};
ghost use Rattle.slices.specs.Limit.{first_outside, first_not_finite, bounded};

use error::{Refusal, Slice};
use scan::{Finite, Within, first_failing};

// Kept: `fill` with the zero of each type, under a contract that says which zero; a generic one would be `fill` itself.
// Every value becomes +0.0.
pub fn zero_f64(s: &mut [f64])
    ensures { s.new ≡ replicate (length s.old) plus_zero }
{
    s.fill(0.0);
}

// Every number becomes 0.
pub fn zero_u32(s: &mut [u32])
    ensures { s.new ≡ replicate (length s.old) 0 }
{
    s.fill(0);
}

// The first value that is not finite, or larger than the limit in size.
pub fn first_outside(s: &[f64], limit: f64) -> Option<usize>
    ensures { result ≡ first_outside limit s.now }
{
    first_failing(s, Within { limit })
}

// The first value that is not finite.
pub fn first_not_finite(s: &[f32]) -> Option<usize>
    ensures { result ≡ first_not_finite s.now }
{
    first_failing(s, Finite)
}

// Refused at the place that was found, if there is one.
fn refused_at(place: Option<usize>, slice: Slice) -> Result<(), Refusal>
    ensures { outcome result ≡ bounded (slice_number slice) place (completed tt) }
{
    match place {
        None => Ok(()),
        Some(place) => Err(Refusal::OutOfBounds {
            slice,
            place: place as u64,
        }),
    }
}

// Whether the values of this slice are all finite and at most the limit in size; the first that is not is refused.
pub fn check_within(values: &[f64], limit: f64, slice: Slice) -> Result<(), Refusal>
    ensures { outcome result ≡ bounded (slice_number slice) (first_outside limit values.now) (completed tt) }
{
    refused_at(first_outside(values, limit), slice)
}

// Whether the values of this slice are all finite; the first that is not is refused.
pub fn check_finite(values: &[f32], slice: Slice) -> Result<(), Refusal>
    ensures { outcome result ≡ bounded (slice_number slice) (first_not_finite values.now) (completed tt) }
{
    refused_at(first_not_finite(values), slice)
}
