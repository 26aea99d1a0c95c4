// Encoding and decoding for the host. The fields of a profile are those of `fib_validate_profile`.
ghost use Rattle.std.specs.Prelude.{◌≡◌, length, replicate};
ghost use Rattle.error.specs.Numbers.{if_completed, accepted, contents};
ghost use Rattle.ieee.specs.Sum.{plus_zero};
ghost use Rattle.decode.specs.Decode.{decode_call, decodable, decoding};
ghost use Rattle.encode.specs.Encode.{encode_call, encoding, counting};
ghost use Rattle.ffi_profile.specs.Profiles.{profile_from};
ghost use Rattle.ffi_crossing.specs.Crossing.{found, crossed, none, one_whole};

use decode::FibQuantizer;
use ffi_crossing::put_answer;
use profile::GivenProfile;

// The frame of a vector into `output`, which must be as long as it; in whole[0] for how many of its blocks another
// codeword is as near as the one chosen.
#[unsafe(no_mangle)]
pub extern "C" fn fib_encode(
    schema: &[u8],
    ambient_dim: u32,
    block_dim: u32,
    codebook_size: u32,
    log2: f64,
    paper_rate: f64,
    wire_index_bits: u8,
    wire_rate: f64,
    norm_format: u8,
    rotation_seed: u64,
    rotation_algorithm: &[u8],
    codebook_seed: u64,
    source_mode: u8,
    radius_method: u8,
    direction_method: u8,
    restarts: u32,
    iterations: u32,
    training_samples: u32,
    empty_cell_policy: u8,
    matrix: &[f64],
    codewords: &[f32],
    input: &[f32],
    output: &mut [u8],
    work: &mut [f64],
    whole: &mut [u64; 4],
    real: &mut [f64; 2],
) -> u32
    ensures { let c = encode_call
        (profile_from ambient_dim block_dim codebook_size paper_rate wire_index_bits
        wire_rate norm_format rotation_seed codebook_seed source_mode radius_method direction_method
        restarts iterations training_samples empty_cell_policy)
        schema.now rotation_algorithm.now log2
        matrix.now codewords.now input.now
        (length output.old) (length work.old) in
        (found result whole.new real.new ≡ crossed one_whole (counting c))
        × (output.new ≡ contents (encoding c) output.old)
        × (work.new ≡ if_completed (encoding c)
        (replicate (length work.old) plus_zero) work.old) }
{
    let profile = ffi_profile::profile_from(
        ambient_dim,
        block_dim,
        codebook_size,
        paper_rate,
        wire_index_bits,
        wire_rate,
        norm_format,
        rotation_seed,
        codebook_seed,
        source_mode,
        radius_method,
        direction_method,
        restarts,
        iterations,
        training_samples,
        empty_cell_policy,
    );
    let quantizer = FibQuantizer {
        given: GivenProfile {
            profile,
            schema,
            rotation_algorithm,
            log2,
        },
        matrix,
        codewords,
    };
    let written = encode::encode(quantizer, input, output, work);
    put_answer(written, whole, real)
}

// The vector of a frame into `output`.
#[unsafe(no_mangle)]
pub extern "C" fn fib_decode(
    schema: &[u8],
    ambient_dim: u32,
    block_dim: u32,
    codebook_size: u32,
    log2: f64,
    paper_rate: f64,
    wire_index_bits: u8,
    wire_rate: f64,
    norm_format: u8,
    rotation_seed: u64,
    rotation_algorithm: &[u8],
    codebook_seed: u64,
    source_mode: u8,
    radius_method: u8,
    direction_method: u8,
    restarts: u32,
    iterations: u32,
    training_samples: u32,
    empty_cell_policy: u8,
    matrix: &[f64],
    codewords: &[f32],
    bytes: &[u8],
    output: &mut [f32],
    work: &mut [f64],
    whole: &mut [u64; 4],
    real: &mut [f64; 2],
) -> u32
    ensures { let c = decode_call
        (profile_from ambient_dim block_dim codebook_size paper_rate wire_index_bits
        wire_rate norm_format rotation_seed codebook_seed source_mode radius_method direction_method
        restarts iterations training_samples empty_cell_policy)
        schema.now rotation_algorithm.now log2
        matrix.now codewords.now bytes.now
        (length output.old) (length work.old) in
        (found result whole.new real.new ≡ crossed none (accepted (decoding c)))
        × (output.new ≡ contents (decoding c) output.old)
        × (work.new ≡ if_completed (decodable c)
        (replicate (length work.old) plus_zero) work.old) }
{
    let profile = ffi_profile::profile_from(
        ambient_dim,
        block_dim,
        codebook_size,
        paper_rate,
        wire_index_bits,
        wire_rate,
        norm_format,
        rotation_seed,
        codebook_seed,
        source_mode,
        radius_method,
        direction_method,
        restarts,
        iterations,
        training_samples,
        empty_cell_policy,
    );
    let quantizer = FibQuantizer {
        given: GivenProfile {
            profile,
            schema,
            rotation_algorithm,
            log2,
        },
        matrix,
        codewords,
    };
    let answer = decode::decode(quantizer, bytes, output, work);
    put_answer(answer, whole, real)
}
