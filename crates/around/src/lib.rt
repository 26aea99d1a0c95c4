// The codewords that lie around a block. specs/Around.antt has the order of the checks, the answer and what the lent list
// holds afterwards.
#![tactic(auto)]

ghost use Rattle.std.specs.Prelude.{◌≡◌, ◌<◌, ◌^◌, length};
ghost use Rattle.std.specs.Float.Ieee.Scale.{finite};
ghost use Rattle.std.specs.Float.{nan};
ghost use Rattle.error.specs.Numbers.{outcome};
ghost use Rattle.slices.specs.First.{count_where};
ghost use Rattle.lloyd_search.specs.Distance.{Widens};
ghost use Rattle.around.specs.Around.{query, sound, radius_fits, around, Listed, ListAfter, within_square};

use error::{Refusal, Slice};
use lloyd_search::Codewords;

// The checks of lengths and values; whether the list's length fits is told.
#[tactic(auto, unfolding(crate::specs::Around::sound))]
fn check_sound(
    codewords: &[f32],
    codebook_size: u64,
    block_dim: u64,
    block: &[f32],
    list_fits: bool,
) -> Result<(), Refusal>
    ensures { outcome result ≡ sound (query codebook_size block_dim codewords.now block.now) list_fits }
{
    if !lloyd_search::codebook_shaped(codebook_size, block_dim, codewords.len()) {
        return Err(Refusal::SliceLength(Slice::Codewords));
    }
    if block.len() as u64 != block_dim {
        return Err(Refusal::SliceLength(Slice::Input));
    }
    if !list_fits {
        return Err(Refusal::SliceLength(Slice::Output));
    }
    slices::check_finite(block, Slice::Input)?;
    slices::check_finite(codewords, Slice::Codewords)
}

// Whether a radius is at least zero and finite.
fn radius_fits(radius: f64) -> bool
    ensures { result ≡ radius_fits radius }
{
    0.0 <= radius && ieee::is_finite(radius)
}

// The numbers of the codewords whose squared distance to the block is at most `square`, to the front of the list. Returns
// how many.
#[tactic(auto, using(crate::proofs::ListedLaw::none_taken), unfolding(slices::specs::First::count_where))]
fn gather(codewords: Codewords<f32>, block: &[f32], square: f64, numbers: &mut [u32]) -> usize
    requires { (length block.now ≡ codewords.dim) × Widens finite nan block.now
        × (length numbers.old ≡ codewords.count) × (codewords.count < 2 ^ 32) }
    ensures { let n = codewords.entry.count in
        let near = within_square (query n codewords.entry.dim codewords.entry.values.now block.now) square in
        (result ≡ count_where near n) × Listed near n result numbers.old numbers.new }
{
    let k = block.len();
    let mut count = 0usize;
    for i in 0..codewords.count {
        let at = i * k;
        if lloyd_search::squared_distance(block, &codewords.values[at..at + k]) <= square {
            numbers[count] = i as u32;
            count = count + 1;
        }
    }
    count
}

// The codewords whose squared distance to the block is at most the radius times itself: how many they are, and their
// numbers at the front of the list. Their order there is left free.
pub fn codewords_within(
    codewords: &[f32],
    codebook_size: u64,
    block_dim: u64,
    block: &[f32],
    radius: f64,
    numbers: &mut [u32],
) -> Result<u64, Refusal>
    ensures { let q = query codebook_size block_dim codewords.now block.now in
        let answer = around q radius (length numbers.old) in
        (outcome result ≡ answer) × ListAfter q radius answer numbers.old numbers.new }
{
    let list_fits = numbers.len() as u64 == codebook_size;
    check_sound(codewords, codebook_size, block_dim, block, list_fits)?;
    if !radius_fits(radius) {
        return Err(Refusal::InvalidRadius);
    }
    let book = Codewords {
        values: codewords,
        count: codebook_size as usize,
        dim: block_dim as usize,
    };
    Ok(gather(book, block, radius * radius, numbers) as u64)
}
