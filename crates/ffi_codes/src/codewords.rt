// Codewords and norms for the host.
ghost use Rattle.std.specs.Prelude.{◌≡◌, length};
ghost use Rattle.error.specs.Numbers.{if_completed};
ghost use Rattle.slices.specs.Lists.{tabulate};
ghost use Rattle.lloyd_search.specs.Distance.{row_of};
ghost use Rattle.codebook.specs.Codebook.{codeword_alone, codewords_alone};
ghost use Rattle.norm.specs.Norm.{norm_bits, norm_value};
ghost use Rattle.ffi_crossing.specs.Crossing.{found, crossed, none, one_whole, one_real};

use ffi_crossing::put_answer;

// A codeword into `output`, which must be as long as it.
#[unsafe(no_mangle)]
pub extern "C" fn fib_codeword(
    codewords: &[f32],
    codebook_size: u64,
    block_dim: u64,
    index: u32,
    output: &mut [f64],
    whole: &mut [u64; 4],
    real: &mut [f64; 2],
) -> u32
    ensures { let answer = codeword_alone codebook_size block_dim codewords.now index
        (length output.old) in
        (found result whole.new real.new ≡ crossed none answer)
        × (output.new ≡ if_completed answer
        (tabulate block_dim (row_of block_dim codewords.now index)) output.old) }
{
    let answer = codebook::codeword(codewords, codebook_size, block_dim, index, output);
    put_answer(answer, whole, real)
}

// The number and the values of codewords.
#[unsafe(no_mangle)]
pub extern "C" fn fib_check_codewords(
    codewords: &[f32],
    codebook_size: u64,
    block_dim: u64,
    whole: &mut [u64; 4],
    real: &mut [f64; 2],
) -> u32
    ensures { found result whole.new real.new
        ≡ crossed none (codewords_alone codebook_size block_dim codewords.now) }
{
    let answer = codebook::check_codewords(codewords, codebook_size, block_dim);
    put_answer(answer, whole, real)
}

// The pattern of a norm in whole[0].
#[unsafe(no_mangle)]
pub extern "C" fn fib_encode_norm(norm: f64, whole: &mut [u64; 4], real: &mut [f64; 2]) -> u32
    ensures { found result whole.new real.new ≡ crossed one_whole (norm_bits norm) }
{
    put_answer(norm::encode_norm(norm), whole, real)
}

// The norm in real[0].
#[unsafe(no_mangle)]
pub extern "C" fn fib_decode_norm(payload: &[u8], whole: &mut [u64; 4], real: &mut [f64; 2]) -> u32
    ensures { found result whole.new real.new
        ≡ crossed one_real (norm_value payload.now) }
{
    put_answer(norm::decode_norm(payload), whole, real)
}
