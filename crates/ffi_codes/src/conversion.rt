// Frames with their norm in the other format, for the host. The fields of a profile are those of `fib_validate_profile`.
ghost use Rattle.std.specs.Prelude.{◌≡◌, length};
ghost use Rattle.error.specs.Numbers.{accepted, contents};
ghost use Rattle.convert.specs.Convert.{convert_call, to_f16, to_f32};
ghost use Rattle.ffi_profile.specs.Profiles.{profile_from};
ghost use Rattle.ffi_crossing.specs.Crossing.{found, crossed, none};

use ffi_crossing::put_answer;
use profile::GivenProfile;

// A frame whose norm has four bytes, with one of two, into `output`, which must be as long as it.
#[unsafe(no_mangle)]
pub extern "C" fn fib_frame_to_f16(
    schema: &[u8],
    ambient_dim: u32,
    block_dim: u32,
    codebook_size: u32,
    log2: f64,
    paper_rate: f64,
    wire_index_bits: u8,
    wire_rate: f64,
    norm_format: u8,
    rotation_seed: u64,
    rotation_algorithm: &[u8],
    codebook_seed: u64,
    source_mode: u8,
    radius_method: u8,
    direction_method: u8,
    restarts: u32,
    iterations: u32,
    training_samples: u32,
    empty_cell_policy: u8,
    bytes: &[u8],
    output: &mut [u8],
    whole: &mut [u64; 4],
    real: &mut [f64; 2],
) -> u32
    ensures { let o = to_f16 (convert_call
        (profile_from ambient_dim block_dim codebook_size paper_rate wire_index_bits
        wire_rate norm_format rotation_seed codebook_seed source_mode radius_method direction_method
        restarts iterations training_samples empty_cell_policy)
        schema.now rotation_algorithm.now log2 bytes.now) (length output.old) in
        (found result whole.new real.new ≡ crossed none (accepted o))
        × (output.new ≡ contents o output.old) }
{
    let profile = ffi_profile::profile_from(
        ambient_dim,
        block_dim,
        codebook_size,
        paper_rate,
        wire_index_bits,
        wire_rate,
        norm_format,
        rotation_seed,
        codebook_seed,
        source_mode,
        radius_method,
        direction_method,
        restarts,
        iterations,
        training_samples,
        empty_cell_policy,
    );
    let given = GivenProfile {
        profile,
        schema,
        rotation_algorithm,
        log2,
    };
    let answer = convert::to_f16(given, bytes, output);
    put_answer(answer, whole, real)
}

// A frame whose norm has two bytes, with one of four, into `output`, which must be as long as it.
#[unsafe(no_mangle)]
pub extern "C" fn fib_frame_to_f32(
    schema: &[u8],
    ambient_dim: u32,
    block_dim: u32,
    codebook_size: u32,
    log2: f64,
    paper_rate: f64,
    wire_index_bits: u8,
    wire_rate: f64,
    norm_format: u8,
    rotation_seed: u64,
    rotation_algorithm: &[u8],
    codebook_seed: u64,
    source_mode: u8,
    radius_method: u8,
    direction_method: u8,
    restarts: u32,
    iterations: u32,
    training_samples: u32,
    empty_cell_policy: u8,
    bytes: &[u8],
    output: &mut [u8],
    whole: &mut [u64; 4],
    real: &mut [f64; 2],
) -> u32
    ensures { let o = to_f32 (convert_call
        (profile_from ambient_dim block_dim codebook_size paper_rate wire_index_bits
        wire_rate norm_format rotation_seed codebook_seed source_mode radius_method direction_method
        restarts iterations training_samples empty_cell_policy)
        schema.now rotation_algorithm.now log2 bytes.now) (length output.old) in
        (found result whole.new real.new ≡ crossed none (accepted o))
        × (output.new ≡ contents o output.old) }
{
    let profile = ffi_profile::profile_from(
        ambient_dim,
        block_dim,
        codebook_size,
        paper_rate,
        wire_index_bits,
        wire_rate,
        norm_format,
        rotation_seed,
        codebook_seed,
        source_mode,
        radius_method,
        direction_method,
        restarts,
        iterations,
        training_samples,
        empty_cell_policy,
    );
    let given = GivenProfile {
        profile,
        schema,
        rotation_algorithm,
        log2,
    };
    let answer = convert::to_f32(given, bytes, output);
    put_answer(answer, whole, real)
}
