// The search for the nearest codeword, the codewords around a block, and the mean error of a codebook, for the host.
ghost use Rattle.std.specs.Prelude.{◌≡◌, length};
ghost use Rattle.lloyd_alone.specs.Answers.{nearest_alone, mean_error_alone};
ghost use Rattle.around.specs.Around.{query, around, ListAfter};
ghost use Rattle.ffi_crossing.specs.Crossing.{found, crossed, one_whole, one_real};
ghost use Rattle.ffi_codes.specs.Search.{found_in};

use ffi_crossing::{put, put_answer, put_refusal};

// The index in whole[0], and in whole[1] whether another codeword has the same distance (1, else 0); the distance in
// real[0].
#[unsafe(no_mangle)]
pub extern "C" fn fib_nearest(
    codewords: &[f64],
    codebook_size: u64,
    block_dim: u64,
    block: &[f64],
    whole: &mut [u64; 4],
    real: &mut [f64; 2],
) -> u32
    ensures { found result whole.new real.new
        ≡ crossed found_in (nearest_alone codebook_size block_dim codewords.now block.now) }
{
    // Kept: matched here, since both the trait of what crosses and the type are other crates'.
    match lloyd_alone::nearest_index(codewords, codebook_size, block_dim, block) {
        Ok(marked) => {
            let found = marked.found;
            put(
                0,
                [found.index as u64, marked.tied as u64, 0, 0],
                [found.distance, 0.0],
                whole,
                real,
            )
        }
        Err(refusal) => put_refusal(refusal, whole, real),
    }
}

// The numbers of the codewords within the radius at the front of `numbers`, which must have a place for each codeword; in
// whole[0] how many they are.
#[unsafe(no_mangle)]
pub extern "C" fn fib_codewords_within(
    codewords: &[f32],
    codebook_size: u64,
    block_dim: u64,
    block: &[f32],
    radius: f64,
    numbers: &mut [u32],
    whole: &mut [u64; 4],
    real: &mut [f64; 2],
) -> u32
    ensures { let q = query codebook_size block_dim codewords.now block.now in
        let answer = around q radius (length numbers.old) in
        (found result whole.new real.new ≡ crossed one_whole answer)
        × ListAfter q radius answer numbers.old numbers.new }
{
    let answer = around::codewords_within(
        codewords,
        codebook_size,
        block_dim,
        block,
        radius,
        numbers,
    );
    put_answer(answer, whole, real)
}

// The error in real[0].
#[unsafe(no_mangle)]
pub extern "C" fn fib_mean_error(
    codewords: &[f64],
    codebook_size: u64,
    block_dim: u64,
    samples: &[f64],
    whole: &mut [u64; 4],
    real: &mut [f64; 2],
) -> u32
    ensures { found result whole.new real.new
        ≡ crossed one_real (mean_error_alone codebook_size block_dim codewords.now samples.now) }
{
    let answer = lloyd_alone::mse_for_codebook(codewords, codebook_size, block_dim, samples);
    put_answer(answer, whole, real)
}
