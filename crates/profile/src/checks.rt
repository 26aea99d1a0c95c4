// The single checks of a profile. Each answers for every input.
ghost use Rattle.std.specs.Prelude.{◌≡◌};
ghost use Rattle.error.specs.Names.{field_number};
ghost use Rattle.error.specs.Numbers.{outcome};
ghost use Rattle.std.specs.Float.Ieee.{le};
ghost use Rattle.profile.specs.Fields.{same_bytes, abs, tolerance, rate_agrees, radius_for, direction_for, index_width};
ghost use Rattle.profile.specs.Checks as valid;

use crate::{DirectionMethod, FibQuantProfile, NormFormat, RadiusMethod, SourceMode};
use error::{Field, Refusal};

// Whether a and b hold the same bytes. Kept: `==` under the definition that the contracts cite.
pub fn same(a: &[u8], b: &[u8]) -> bool
    ensures { result ≡ same_bytes a.now b.now }
{
    a == b
}

// A string that has to be the one expected.
pub fn named(field: Field, given: &[u8], expected: &[u8]) -> Result<(), Refusal>
    ensures { outcome result ≡ valid.named (field_number field) given.now expected.now }
{
    if same(given, expected) {
        return Ok(());
    }
    Err(Refusal::ProfileField(field))
}

// Dimensions and codebook size.
#[tactic(auto, unfolding(crate::specs::Checks::shape_of))]
pub fn shape(d: u64, k: u64, n: u64) -> Result<(), Refusal>
    ensures { outcome result ≡ valid.shape_of d k n }
{
    if d == 0 {
        return Err(Refusal::ZeroDimension);
    }
    if k == 0 || d <= k {
        return Err(Refusal::InvalidBlockDim {
            ambient_dim: d,
            block_dim: k,
        });
    }
    if d % k != 0 {
        return Err(Refusal::DimensionNotDivisible {
            ambient_dim: d,
            block_dim: k,
        });
    }
    if FibQuantProfile::MAX_AMBIENT_DIM < d {
        return Err(Refusal::ResourceLimitExceeded);
    }
    if FibQuantProfile::MAX_BLOCK_DIM < k {
        return Err(Refusal::ResourceLimitExceeded);
    }
    if n < 2 || FibQuantProfile::MAX_CODEBOOK_SIZE < n {
        return Err(Refusal::InvalidCodebookSize(n));
    }
    Ok(())
}

// The values of a rotation matrix and of a codebook.
pub fn sizes(d: u32, k: u32, n: u32) -> Result<(), Refusal>
    ensures { outcome result ≡ valid.sizes_of d k n }
{
    if FibQuantProfile::MAX_ROTATION_MATRIX_VALUES < d as u64 * d as u64 {
        return Err(Refusal::ResourceLimitExceeded);
    }
    if FibQuantProfile::MAX_CODEBOOK_VALUES < n as u64 * k as u64 {
        return Err(Refusal::ResourceLimitExceeded);
    }
    Ok(())
}

// Norm format and source of the samples.
pub fn formats(norm: NormFormat, source: SourceMode) -> Result<(), Refusal>
    ensures { outcome result ≡ valid.formats_of norm source }
{
    if norm != NormFormat::Fp16Paper {
        return Err(Refusal::ProfileField(Field::NormFormat));
    }
    if source != SourceMode::CanonicalSphericalBeta {
        return Err(Refusal::ProfileField(Field::SourceMode));
    }
    Ok(())
}

// The least number of bits that holds every index below n: 0 where n is 0 or 1.
pub fn index_width(n: u64) -> u8
    ensures { result ≡ index_width n }
{
    if n < 2 {
        return 0;
    }
    (64 - u64::leading_zeros(n - 1)) as u8
}

pub fn width(bits: u8, n: u32) -> Result<(), Refusal>
    ensures { outcome result ≡ valid.width_of bits n }
{
    if bits != index_width(n as u64) {
        return Err(Refusal::ProfileField(Field::WireBits));
    }
    Ok(())
}

// Whether a difference is at most the tolerance, either way.
fn is_small(difference: f64) -> bool
    ensures { result ≡ le (abs difference) tolerance }
{
    difference <= FibQuantProfile::RATE_TOLERANCE && -FibQuantProfile::RATE_TOLERANCE <= difference
}

fn rate_agrees(given: f64, expected: f64) -> bool
    ensures { result ≡ rate_agrees given expected }
{
    ieee::is_finite(given) && ieee::is_finite(expected) && is_small(given - expected)
}

// A rate against the one expected.
pub fn rate(field: Field, given: f64, expected: f64) -> Result<(), Refusal>
    ensures { outcome result ≡ valid.rate_of (field_number field) given expected }
{
    if rate_agrees(given, expected) {
        return Ok(());
    }
    Err(Refusal::ProfileRate {
        field,
        given,
        expected,
    })
}

// The radius method for blocks of k values.
pub fn radius_for(k: u32) -> RadiusMethod
    ensures { result ≡ radius_for k }
{
    if k == 2 {
        return RadiusMethod::K2ClosedForm;
    }
    RadiusMethod::BetaQuantile
}

// The direction method for blocks of k values.
pub fn direction_for(k: u32) -> DirectionMethod
    ensures { result ≡ direction_for k }
{
    if k == 2 {
        return DirectionMethod::FibonacciSpiral;
    }
    if k == 3 {
        return DirectionMethod::FibonacciSphere;
    }
    DirectionMethod::RobertsKronecker
}

// The two methods against those for blocks of k values.
pub fn methods(k: u32, radius: RadiusMethod, direction: DirectionMethod) -> Result<(), Refusal>
    ensures { outcome result ≡ valid.methods_of k radius direction }
{
    if radius == radius_for(k) && direction == direction_for(k) {
        Ok(())
    } else {
        Err(Refusal::ProfileField(Field::MethodPair))
    }
}

// Restarts, iterations and training samples, of a codebook of n.
#[tactic(auto, unfolding(crate::specs::Checks::settings_of))]
pub fn settings(restarts: u32, iterations: u32, samples: u32, n: u32) -> Result<(), Refusal>
    ensures { outcome result ≡ valid.settings_of restarts iterations samples n }
{
    if restarts == 0 || FibQuantProfile::MAX_LLOYD_RESTARTS < restarts {
        return Err(Refusal::ProfileField(Field::Restarts));
    }
    if iterations == 0 || FibQuantProfile::MAX_LLOYD_ITERATIONS < iterations {
        return Err(Refusal::ProfileField(Field::Iterations));
    }
    if samples < n || FibQuantProfile::MAX_TRAINING_SAMPLES < samples {
        return Err(Refusal::ProfileField(Field::Samples));
    }
    Ok(())
}
