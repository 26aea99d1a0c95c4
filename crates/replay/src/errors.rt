// Records of mse, nearest_index and mse_for_codebook. Results are compared by their bits.
use crate::answer;
use crate::reader::{Malformed, Reader};

// length (1 byte) and values (4 each) of the left side, the same of the right side, answer, result (8)
pub fn mse(reader: &mut Reader<'_>) -> Result<bool, Malformed> {
    let mut left_room = [0.0; 8];
    let left = reader.list(&mut left_room)?;
    let mut right_room = [0.0; 8];
    let right = reader.list(&mut right_room)?;
    let error = metrics::mse(left, right);
    answer::is_recorded(reader, error.map(patterns::f64_bits), Reader::u64)
}

// N (1 byte), k (1), length (1) and values (8 each) of the
// codewords, the same of the block, answer, index (4), distance (8), which stand after a refusal too
pub fn nearest(reader: &mut Reader<'_>) -> Result<bool, Malformed> {
    let size = u64::from(reader.u8()?);
    let dim = u64::from(reader.u8()?);
    let mut codewords_room = [0.0; 32];
    let codewords = reader.list(&mut codewords_room)?;
    let mut block_room = [0.0; 32];
    let block = reader.list(&mut block_room)?;
    // The Rust has no mark to compare with.
    let found = lloyd_alone::nearest_index(codewords, size, dim, block).map(|marked| (
        marked.found.index,
        patterns::f64_bits(marked.found.distance),
    ));
    let refused = answer::refusal(reader)?;
    let recorded = (reader.u32()? as usize, reader.u64()?);
    // The Rust refuses none of these, so a refusal counts as different.
    Ok(refused.is_none() && found.ok() == Some(recorded))
}

// N (1 byte), k (1), length (1) and values (8 each) of the
// codewords, the same of the samples, answer, result (8)
pub fn mean_error(reader: &mut Reader<'_>) -> Result<bool, Malformed> {
    let size = u64::from(reader.u8()?);
    let dim = u64::from(reader.u8()?);
    let mut codewords_room = [0.0; 32];
    let codewords = reader.list(&mut codewords_room)?;
    let mut samples_room = [0.0; 32];
    let samples = reader.list(&mut samples_room)?;
    let error = lloyd_alone::mse_for_codebook(codewords, size, dim, samples);
    answer::is_recorded(reader, error.map(patterns::f64_bits), Reader::u64)
}
