// The profile's checks, its default, and the numbers worked out from it, for the host.
ghost use Rattle.std.specs.Prelude.{◌≡◌};
ghost use Rattle.profile.specs.Checks.{validity};
ghost use Rattle.profile.specs.Paper.{paper_of, wire_bits_of, block_count_of, samples_of};
ghost use Rattle.ffi_crossing.specs.Crossing.{found, crossed, none, one_whole};
ghost use Rattle.ffi_profile.specs.Profiles.{profile_from, rates_in, fields_after};

use ffi_crossing::{put, put_answer, put_refusal};
use profile::{FibQuantProfile, GivenProfile};

// A whole profile.
#[unsafe(no_mangle)]
pub extern "C" fn fib_validate_profile(
    schema: &[u8],
    ambient_dim: u32,
    block_dim: u32,
    codebook_size: u32,
    log2: f64,
    paper_rate: f64,
    wire_index_bits: u8,
    wire_rate: f64,
    norm_format: u8,
    rotation_seed: u64,
    rotation_algorithm: &[u8],
    codebook_seed: u64,
    source_mode: u8,
    radius_method: u8,
    direction_method: u8,
    restarts: u32,
    iterations: u32,
    training_samples: u32,
    empty_cell_policy: u8,
    whole: &mut [u64; 4],
    real: &mut [f64; 2],
) -> u32
    ensures { found result whole.new real.new
        ≡ crossed none
        (validity
        (profile_from ambient_dim block_dim codebook_size paper_rate wire_index_bits wire_rate
        norm_format rotation_seed codebook_seed source_mode radius_method direction_method
        restarts iterations training_samples empty_cell_policy)
        schema.now rotation_algorithm.now log2) }
{
    let profile = ffi_profile::profile_from(
        ambient_dim,
        block_dim,
        codebook_size,
        paper_rate,
        wire_index_bits,
        wire_rate,
        norm_format,
        rotation_seed,
        codebook_seed,
        source_mode,
        radius_method,
        direction_method,
        restarts,
        iterations,
        training_samples,
        empty_cell_policy,
    );
    let given = GivenProfile {
        profile,
        schema,
        rotation_algorithm,
        log2,
    };
    put_answer(given.validate(), whole, real)
}

// The width of an index in whole[0].
#[unsafe(no_mangle)]
pub extern "C" fn fib_wire_index_bits(
    codebook_size: u64,
    whole: &mut [u64; 4],
    real: &mut [f64; 2],
) -> u32
    ensures { found result whole.new real.new ≡ crossed one_whole (wire_bits_of codebook_size) }
{
    put_answer(profile::wire_index_bits(codebook_size), whole, real)
}

// A profile of which only the dimensions are meant.
fn with_dimensions(ambient_dim: u32, block_dim: u32) -> FibQuantProfile
    ensures { (result.ambient_dim ≡ ambient_dim) × (result.block_dim ≡ block_dim) }
{
    ffi_profile::profile_from(
        ambient_dim,
        block_dim,
        0,
        0.0,
        0,
        0.0,
        0,
        0,
        0,
        0,
        0,
        0,
        0,
        0,
        0,
        0,
    )
}

// The number of blocks in whole[0].
#[unsafe(no_mangle)]
pub extern "C" fn fib_block_count(
    ambient_dim: u32,
    block_dim: u32,
    whole: &mut [u64; 4],
    real: &mut [f64; 2],
) -> u32
    ensures { found result whole.new real.new
        ≡ crossed one_whole (block_count_of ambient_dim block_dim) }
{
    put_answer(
        with_dimensions(ambient_dim, block_dim).block_count(),
        whole,
        real,
    )
}

// The default number of training samples in whole[0].
#[unsafe(no_mangle)]
pub extern "C" fn fib_default_training_samples(
    codebook_size: u64,
    whole: &mut [u64; 4],
    real: &mut [f64; 2],
) -> u32
    ensures { found result whole.new real.new ≡ crossed one_whole (samples_of codebook_size) }
{
    put_answer(
        profile::default_training_samples(codebook_size),
        whole,
        real,
    )
}

// The paper's profile: its rates in `real`, its other fields in `fields`.
#[unsafe(no_mangle)]
pub extern "C" fn fib_paper_default(
    ambient_dim: u64,
    block_dim: u64,
    codebook_size: u64,
    log2: f64,
    seed: u64,
    fields: &mut [u64; 14],
    whole: &mut [u64; 4],
    real: &mut [f64; 2],
) -> u32
    ensures { let o = paper_of ambient_dim block_dim codebook_size seed log2 in
        (found result whole.new real.new ≡ crossed rates_in o)
        × (fields.new ≡ fields_after o fields.old) }
{
    // Kept: matched here, since a profile goes to a buffer of its own besides.
    match FibQuantProfile::paper_default(ambient_dim, block_dim, codebook_size, seed, log2) {
        Ok(profile) => {
            *fields = ffi_profile::fields_of(profile);
            let rates = [
                profile.paper_rate_bits_per_coord,
                profile.wire_bits_per_coord,
            ];
            put(0, [0; 4], rates, whole, real)
        }
        Err(refusal) => put_refusal(refusal, whole, real),
    }
}
