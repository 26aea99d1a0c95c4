// The profile of a quantiser, its limits and its checks: module profile.rs of
// fib-quant, without digest and message texts. specs/Checks.antt has the order, the
// numbers and the values of the checks.
// Public only for the checks of a refinement and of a report.
#![tactic(auto)]

pub mod checks;

ghost use Rattle.std.specs.Prelude.{◌≡◌};
ghost use Rattle.error.specs.Numbers.{outcome};
ghost use Rattle.profile.specs.Checks.{validity, numbers_of};
ghost use Rattle.profile.specs.Paper.{paper_of, profile_of, wire_bits_of, block_count_of, samples_of, within_limits};

use error::{Field, Refusal};

// How the norm of a vector is stored.
#[derive(Clone, Copy, Debug, PartialEq, Eq)]
pub enum NormFormat {
    Fp16Paper,
    F32Reference,
}

// Where training samples come from.
#[derive(Clone, Copy, Debug, PartialEq, Eq)]
pub enum SourceMode {
    CanonicalSphericalBeta,
    ReferenceGaussianProjection,
}

// How the radii of the initial codewords are chosen.
#[derive(Clone, Copy, Debug, PartialEq, Eq)]
pub enum RadiusMethod {
    BetaQuantile,
    K2ClosedForm,
    LargeDSingleShellExplicit,
}

// How their directions are chosen.
#[derive(Clone, Copy, Debug, PartialEq, Eq)]
pub enum DirectionMethod {
    FibonacciSpiral,
    FibonacciSphere,
    RobertsKronecker,
}

// What an update does about a cell without samples.
#[derive(Clone, Copy, Debug, PartialEq, Eq)]
pub enum EmptyCellPolicy {
    SplitHighestDistortion,
    FailClosed,
}

#[derive(Clone, Copy, Debug, PartialEq)]
pub struct FibQuantProfile {
    pub ambient_dim: u32,
    pub block_dim: u32,
    pub codebook_size: u32,
    pub paper_rate_bits_per_coord: f64,
    pub wire_index_bits: u8,
    pub wire_bits_per_coord: f64,
    pub norm_format: NormFormat,
    pub rotation_seed: u64,
    pub codebook_seed: u64,
    pub source_mode: SourceMode,
    pub radius_method: RadiusMethod,
    pub direction_method: DirectionMethod,
    pub lloyd_restarts: u32,
    pub lloyd_iterations: u32,
    pub training_samples: u32,
    pub empty_cell_policy: EmptyCellPolicy,
}

// A profile as it is handed in: its strings and log2 of the codebook size are tested and then not needed any more.
#[derive(Clone, Copy)]
pub struct GivenProfile<'a> {
    pub profile: FibQuantProfile,
    pub schema: &'a [u8],
    pub rotation_algorithm: &'a [u8],
    pub log2: f64,
}

impl FibQuantProfile {
    pub const MAX_AMBIENT_DIM: u64 = 16_384;

    pub const MAX_BLOCK_DIM: u64 = 256;

    pub const MAX_CODEBOOK_SIZE: u64 = 1 << 20;

    pub const MAX_TRAINING_SAMPLES: u32 = 10_000_000;

    pub const MAX_ROTATION_MATRIX_VALUES: u64 = 16_777_216;

    pub const MAX_CODEBOOK_VALUES: u64 = 67_108_864;

    pub const MAX_LLOYD_RESTARTS: u32 = 1_024;

    pub const MAX_LLOYD_ITERATIONS: u32 = 100_000;

    // By how much a rate may differ from the one expected.
    pub const RATE_TOLERANCE: f64 = 1.0e-12;

    // The paper's profile with the methods for its block dimension, checked.
    pub fn paper_default(
        ambient_dim: u64,
        block_dim: u64,
        codebook_size: u64,
        seed: u64,
        log2: f64,
    ) -> Result<FibQuantProfile, Refusal>
        ensures { outcome result ≡ paper_of ambient_dim block_dim codebook_size seed log2 }
    {
        checks::shape(ambient_dim, block_dim, codebook_size)?;
        let profile = paper_fields(
            ambient_dim as u32,
            block_dim as u32,
            codebook_size as u32,
            seed,
            log2,
        );
        let given = GivenProfile {
            profile,
            schema: b"fib_quant_profile_v1",
            rotation_algorithm: b"qr-gaussian-chacha8-sign-corrected-v1",
            log2,
        };
        given.validate()?;
        Ok(profile)
    }

    // The fields from the width on.
    fn numbers(self, log2: f64) -> Result<(), Refusal>
        ensures { outcome result ≡ numbers_of self log2 }
    {
        let k = self.block_dim;
        let n = self.codebook_size;
        checks::width(self.wire_index_bits, n)?;
        checks::rate(
            Field::PaperRate,
            self.paper_rate_bits_per_coord,
            log2 / k as f64,
        )?;
        checks::rate(
            Field::WireRate,
            self.wire_bits_per_coord,
            self.wire_index_bits as f64 / k as f64,
        )?;
        checks::methods(k, self.radius_method, self.direction_method)?;
        checks::settings(
            self.lloyd_restarts,
            self.lloyd_iterations,
            self.training_samples,
            n,
        )
    }

    // How many blocks a vector has.
    pub fn block_count(self) -> Result<u32, Refusal>
        ensures { outcome result ≡ block_count_of self.ambient_dim self.block_dim }
    {
        if self.block_dim == 0 {
            return Err(Refusal::InvalidBlockDim {
                ambient_dim: self.ambient_dim as u64,
                block_dim: self.block_dim as u64,
            });
        }
        Ok(self.ambient_dim / self.block_dim)
    }
}

impl GivenProfile<'_> {
    // Every check of the profile, in their order.
    pub fn validate(self) -> Result<(), Refusal>
        ensures { outcome result
            ≡ validity self.entry.profile self.entry.schema.now self.entry.rotation_algorithm.now
            self.entry.log2 }
    {
        let profile = self.profile;
        let d = profile.ambient_dim;
        let k = profile.block_dim;
        let n = profile.codebook_size;
        checks::named(Field::Schema, self.schema, b"fib_quant_profile_v1")?;
        checks::shape(d as u64, k as u64, n as u64)?;
        checks::sizes(d, k, n)?;
        checks::formats(profile.norm_format, profile.source_mode)?;
        checks::named(
            Field::RotationAlgorithm,
            self.rotation_algorithm,
            b"qr-gaussian-chacha8-sign-corrected-v1",
        )?;
        profile.numbers(self.log2)
    }
}

// The width of one index of a codebook of that size.
pub fn wire_index_bits(codebook_size: u64) -> Result<u8, Refusal>
    ensures { outcome result ≡ wire_bits_of codebook_size }
{
    if codebook_size < 2 {
        return Err(Refusal::InvalidCodebookSize(codebook_size));
    }
    Ok(checks::index_width(codebook_size))
}

// The number of training samples of the paper's profile.
pub fn default_training_samples(codebook_size: u64) -> Result<u32, Refusal>
    ensures { outcome result ≡ samples_of codebook_size }
{
    if u64::MAX / 30 < codebook_size {
        return Err(Refusal::ResourceLimitExceeded);
    }
    Ok(within_limits(30 * codebook_size))
}

// A number of samples, kept within the limits.
fn within_limits(samples: u64) -> u32
    ensures { result ≡ within_limits samples }
{
    samples.clamp(256, FibQuantProfile::MAX_TRAINING_SAMPLES as u64) as u32
}

// The paper's profile, not checked.
#[tactic(auto, unfolding(crate::specs::Paper::profile_of))]
fn paper_fields(d: u32, k: u32, n: u32, seed: u64, log2: f64) -> FibQuantProfile
    ensures { result ≡ profile_of d k n seed log2 }
{
    let bits = checks::index_width(n as u64);
    FibQuantProfile {
        ambient_dim: d,
        block_dim: k,
        codebook_size: n,
        paper_rate_bits_per_coord: log2 / k as f64,
        wire_index_bits: bits,
        wire_bits_per_coord: bits as f64 / k as f64,
        norm_format: NormFormat::Fp16Paper,
        rotation_seed: seed,
        codebook_seed: std::num::wrapping_add_u64(seed, 0x9e37_79b9_7f4a_7c15),
        source_mode: SourceMode::CanonicalSphericalBeta,
        radius_method: checks::radius_for(k),
        direction_method: checks::direction_for(k),
        lloyd_restarts: 4,
        lloyd_iterations: 25,
        training_samples: within_limits(30 * n as u64),
        empty_cell_policy: EmptyCellPolicy::SplitHighestDistortion,
    }
}
