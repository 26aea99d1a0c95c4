// Encodes a vector into a compact frame: the checks, its norm, and the frame. From codec.rs of fib-quant, without
// digests. specs/Encode.antt has the order of the checks, their numbers and values, and the frame that is written.
// The entry point is `encode`, at the end.
#![tactic(auto)]

mod search;

ghost use Rattle.std.specs.Prelude.{count_by, ◌≡◌, cond, ◌++◌, ◌+◌, ◌*◌, ◌/◌, ◌≤◌, ◌<◌, length, get_or, drop, replicate};
ghost use Rattle.std.specs.Float.{nan, binary32};
ghost use Rattle.error.specs.Numbers.{outcome, if_completed, contents};
ghost use Rattle.ieee.specs.Sum.{plus_zero};
ghost use Rattle.slices.specs.Lists.{tabulate};
ghost use Rattle.narrow.specs.Pack.{narrow_to};
ghost use Rattle.bitpack.specs.Layout.{bytes_for, packed_bit, packed_bytes};
ghost use Rattle.bitpack.specs.Cursor.{WriterAt};
ghost use Rattle.slices.specs.Bytes.{bytes_of};
ghost use Rattle.compact.specs.Frame.{header, frame_of};
ghost use Rattle.lloyd_search.specs.Choice.{mark_of};
ghost use Rattle.encode.specs.Encode.{encode_call_of, norm_of, normalized_at, frame_for, tied_blocks, lengths, normed, fitting, encoding, counting};
ghost use Rattle.encode.specs.Search.{indices_of, tied_of};
ghost use Rattle.encode.specs.Work.{Writable};

use bitpack::BitWriter;
use decode::FibQuantizer;
use error::{Refusal, Slice};
use lloyd_search::{Choice, Codewords};
use search::Search;

// The lengths of matrix, codewords, input, output and float work.
// Kept: beside the decoder's, since the input is tested between slices that both test, and the order is document 01's.
fn check_lengths(
    quantizer: FibQuantizer<'_>,
    input: usize,
    output: usize,
    work: usize,
) -> Result<(), Refusal>
    requires { 1 ≤ quantizer.given.profile.block_dim }
    ensures { let q = quantizer.entry in
        let p = q.given.profile in
        outcome result ≡ lengths p.ambient_dim p.block_dim p.codebook_size p.wire_index_bits
        (length q.matrix.now) (length q.codewords.now) input output work }
{
    let profile = quantizer.given.profile;
    let d = profile.ambient_dim as usize;
    let k = profile.block_dim as usize;
    if quantizer.matrix.len() != d * d {
        return Err(Refusal::SliceLength(Slice::Matrix));
    }
    if quantizer.codewords.len() != profile.codebook_size as usize * k {
        return Err(Refusal::SliceLength(Slice::Codewords));
    }
    if input != d {
        return Err(Refusal::SliceLength(Slice::Input));
    }
    if output != 13 + (d / k * profile.wire_index_bits as usize + 7) / 8 {
        return Err(Refusal::SliceLength(Slice::Output));
    }
    if work != 2 * d {
        return Err(Refusal::SliceLength(Slice::FloatWork));
    }
    Ok(())
}

// The root of the sum of the squares.
fn l2_norm(input: &[f32]) -> f64
    ensures { result ≡ norm_of input.now }
{
    let mut sum = 0.0;
    for value in input {
        let x = narrow::f32_to_f64(*value);
        sum += x * x;
    }
    root::sqrt(sum)
}

// The checks of the input and of its norm, and the norm's pattern.
#[tactic(auto, unfolding(crate::specs::Encode::normed))]
fn check_norm(input: &[f32], norm: f64) -> Result<u16, Refusal>
    ensures { outcome result ≡ normed input.now norm }
{
    if let Some(place) = slices::first_not_finite(input) {
        return Err(Refusal::NonFiniteInput(place as u64));
    }
    if norm == 0.0 {
        return Err(Refusal::ZeroNorm);
    }
    norm::encode_norm(norm)
}

// The checks that do not read the input: of the profile, the lengths, and the values of codewords and matrix.
#[tactic(auto, unfolding(crate::specs::Encode::fitting), using(profile::proofs::Facts::valid))]
fn check_call(
    quantizer: FibQuantizer<'_>,
    input: &[f32],
    output: usize,
    work: usize,
) -> Result<(), Refusal>
    ensures { outcome result ≡ fitting (encode_call_of quantizer.entry input.now output work) }
{
    quantizer.given.validate()?;
    check_lengths(quantizer, input.len(), output, work)?;
    decode::check_values(quantizer)
}

// The input over its norm, widened.
#[tactic(auto, using(slices::proofs::ListLaw::patched_more), unfolding(slices::specs::Lists::patched, crate::specs::Encode::normalized_at))]
fn normalize(input: &[f32], norm: f64, output: &mut [f64])
    requires { length output.old ≡ length input.now }
    ensures { output.new ≡ tabulate (length output.old) (normalized_at input.now norm) }
{
    for (i, x) in input.iter().enumerate() {
        output[i] = narrow::f32_to_f64(*x) / norm;
    }
}

// Each value, rounded to binary32.
#[tactic(auto, unfolding(slices::specs::Lists::patched))]
fn round(values: &mut [f64])
    ensures { values.new
        ≡ tabulate (length values.old) (λ i. narrow_to binary32 (get_or values.old i nan)) }
{
    for value in values.iter_mut() {
        *value = narrow::f32_to_f64(narrow::f64_to_f32(*value));
    }
}

// 1 where another codeword is as near as the one chosen, else 0.
// Kept: beside `count_four`, which an array of one choice would walk for a single test.
fn count_one(choice: Choice) -> usize
    ensures { result ≡ cond (mark_of choice) 1 0 }
{
    if lloyd_search::is_tied(choice) { 1 } else { 0 }
}

// For how many of four blocks another codeword is as near as the one chosen.
fn count_four(four: [Choice; 4]) -> usize
    ensures { result ≡ count_by mark_of four }
{
    four.iter()
        .filter(|choice| lloyd_search::is_tied(**choice))
        .count()
}

// The blocks passed: the writer after their indices, and for how many of them another codeword was as near.
#[derive(Clone, Copy)]
struct Blocks {
    writer: BitWriter,
    tied_blocks: usize,
}

// The first 13 bytes of a frame: the header, and the norm's pattern.
fn write_front(width: u8, count: u32, bits: u16, output: &mut [u8])
    requires { length output.old ≡ 13 }
    ensures { output.new ≡ header width count 2 ++ bytes_of 2 bits }
{
    let (head, norm) = output.split_at_mut(11);
    compact::write_header(width, count, 2, head);
    norm.copy_from_slice(&bits.to_le_bytes());
}

impl Search<'_, '_> {
    // The packed indices of the whole fours of blocks, four searched at once so that a codeword is widened once for them.
    fn write_fours(self, output: &mut [u8]) -> Blocks
        requires { length output.old ≡ bytes_for (self.count * self.width) }
        ensures { let s = self.entry in
            WriterAt (packed_bit (indices_of s) s.width)
            (s.count / 4 * 4 * s.width) output.old output.new result.writer
            × (result.tied_blocks ≡ tied_of s (s.count / 4 * 4)) }
    {
        let k = self.codewords.dim;
        let mut writer = BitWriter::new();
        let mut tied_blocks = 0usize;
        for turn in 0..self.count as usize / 4 {
            let at = turn * 4 * k;
            let found = lloyd_search_f32::search_four_f32(
                self.codewords,
                &self.values[at..at + 4 * k],
            );
            writer.push(found[0].found.index as u32, self.width, output);
            writer.push(found[1].found.index as u32, self.width, output);
            writer.push(found[2].found.index as u32, self.width, output);
            writer.push(found[3].found.index as u32, self.width, output);
            tied_blocks = tied_blocks + count_four(found);
        }
        Blocks {
            writer,
            tied_blocks,
        }
    }

    // The packed indices of the codewords that are nearest to the blocks. Returns for how many blocks another was as near.
    fn write_indices(self, output: &mut [u8]) -> usize
        requires { length output.old ≡ bytes_for (self.count * self.width) }
        ensures { let s = self.entry in
            (output.new ≡ packed_bytes (indices_of s) s.width)
            × (result ≡ tied_of s s.count) }
    {
        let k = self.codewords.dim;
        let count = self.count as usize;
        let fours = self.write_fours(output);
        let mut writer = fours.writer;
        let mut tied_blocks = fours.tied_blocks;
        for i in count / 4 * 4..count {
            let at = i * k;
            let choice = self.codewords.search(&self.values[at..at + k]);
            let index = choice.found.index;
            writer.push(index as u32, self.width, output);
            tied_blocks = tied_blocks + count_one(choice);
        }
        writer.finish(output);
        tied_blocks
    }

    // The whole frame. Returns the number of its tied blocks.
    fn write_frame(self, bits: u16, output: &mut [u8]) -> usize
        requires { length output.old ≡ 13 + bytes_for (self.count * self.width) }
        ensures { let s = self.entry in
            (output.new ≡ frame_of s.width s.count (bytes_of 2 bits) (packed_bytes (indices_of s) s.width))
            × (result ≡ tied_of s s.count) }
    {
        let (front, indices) = output.split_at_mut(13);
        write_front(self.width, self.count, bits, front);
        self.write_indices(indices)
    }
}

// The frame of an input whose norm and its pattern are known. Returns the number of its tied blocks.
// The first half of the work takes the input over its norm, the second what it is rotated to. The work is zeroed.
fn write_code(
    quantizer: FibQuantizer<'_>,
    input: &[f32],
    norm: f64,
    bits: u16,
    output: &mut [u8],
    work: &mut [f64],
) -> u32
    requires writable { Writable quantizer (length input.now) (length output.old) (length work.old) }
    requires norm { norm ≡ norm_of input.now }
    ensures { let q = quantizer.entry in
        let p = q.given.profile in
        (output.new ≡ frame_for p q.matrix.now q.codewords.now input.now bits)
        × (work.new ≡ replicate (length work.old) plus_zero)
        × (result ≡ tied_blocks p q.matrix.now q.codewords.now input.now) }
{
    let profile = quantizer.given.profile;
    let codewords = Codewords {
        values: quantizer.codewords,
        count: profile.codebook_size as usize,
        dim: profile.block_dim as usize,
    };
    let (vector, rotated) = work.split_at_mut(input.len());
    normalize(input, norm, vector);
    rotation::rotate(quantizer.matrix, vector, rotated);
    round(rotated);
    let search = Search {
        codewords,
        values: rotated,
        count: profile.ambient_dim / profile.block_dim,
        width: profile.wire_index_bits,
    };
    let tied_blocks = search.write_frame(bits, output);
    slices::zero_f64(work);
    tied_blocks as u32
}

// The frame of a vector: its norm, and for each block the index of the nearest codeword. Returns for how many blocks
// another codeword was as near as the one chosen. A refusal leaves both buffers as they were. An input of the wrong
// length is refused before any of it is read.
#[tactic(auto, using(crate::proofs::AcceptLaw::writable), unfolding(crate::specs::Encode::codable))]
pub fn encode(
    quantizer: FibQuantizer<'_>,
    input: &[f32],
    output: &mut [u8],
    work: &mut [f64],
) -> Result<u32, Refusal>
    ensures { let c = encode_call_of quantizer.entry input.now (length output.old) (length work.old) in
        (outcome result ≡ counting c)
        × (output.new ≡ contents (encoding c) output.old)
        × (work.new ≡ if_completed (encoding c)
        (replicate (length work.old) plus_zero) work.old) }
{
    check_call(quantizer, input, output.len(), work.len())?;
    let norm = l2_norm(input);
    let bits = check_norm(input, norm)?;
    Ok(write_code(quantizer, input, norm, bits, output, work))
}
