// The codewords of codebook.rs: one of them, widened, and the checks of their number and of their values.
#![tactic(auto)]

ghost use Rattle.std.specs.Prelude.{◌≡◌, ◌+◌, ◌≤◌, length, get_or};
ghost use Rattle.std.specs.Float.{nan};
ghost use Rattle.error.specs.Numbers.{outcome, if_completed};
ghost use Rattle.slices.specs.Lists.{tabulate, patched};
ghost use Rattle.lloyd_search.specs.Distance.{row_of};
ghost use Rattle.codebook.specs.Codebook.{codeword_alone, codewords_alone};

use error::{Refusal, Slice};

// Public only for the crates above: k values from `at` on, widened, to the places of the output from `to` on.
#[tactic(auto, using(slices::proofs::ListLaw::patched_more), unfolding(slices::specs::Lists::patched))]
pub fn widen_row(codewords: &[f32], at: usize, k: usize, output: &mut [f64], to: usize)
    requires { (at + k ≤ length codewords.now) × (to + k ≤ length output.old) }
    ensures { output.new
        ≡ patched output.old to k (λ j. get_or codewords.now (at + j) nan) }
{
    for j in 0..k {
        output[to + j] = narrow::f32_to_f64(codewords[at + j]);
    }
}

// The codeword of this index, of a codebook of codebook_size codewords with block_dim coordinates each.
#[tactic(auto, unfolding(crate::specs::Codebook::codeword_alone))]
pub fn codeword(
    codewords: &[f32],
    codebook_size: u64,
    block_dim: u64,
    index: u32,
    output: &mut [f64],
) -> Result<(), Refusal>
    ensures { let answer = codeword_alone codebook_size block_dim codewords.now index
        (length output.old) in
        (outcome result ≡ answer)
        × (output.new ≡ if_completed answer
        (tabulate block_dim (row_of block_dim codewords.now index)) output.old) }
{
    if !lloyd_search::codebook_shaped(codebook_size, block_dim, codewords.len()) {
        return Err(Refusal::SliceLength(Slice::Codewords));
    }
    if output.len() as u64 != block_dim {
        return Err(Refusal::SliceLength(Slice::Output));
    }
    if index as u64 >= codebook_size {
        return Err(Refusal::IndexOutOfRange {
            index,
            bound: codebook_size as u32,
        });
    }
    let k = block_dim as usize;
    widen_row(codewords, index as usize * k, k, output, 0);
    Ok(())
}

// Whether the codewords are as many as they should be, and all finite.
#[tactic(auto, unfolding(crate::specs::Codebook::codewords_alone))]
pub fn check_codewords(codewords: &[f32], codebook_size: u64, block_dim: u64) -> Result<(), Refusal>
    ensures { outcome result ≡ codewords_alone codebook_size block_dim codewords.now }
{
    if !lloyd_search::codebook_shaped(codebook_size, block_dim, codewords.len()) {
        return Err(Refusal::SliceLength(Slice::Codewords));
    }
    slices::check_finite(codewords, Slice::Codewords)
}
