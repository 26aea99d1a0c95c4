// Decoding of a compact frame: module codec.rs of fib-quant, from_compact_bytes and decode, without digests.
// specs/Decode.antt has the order of the checks, their numbers and values, and what the bytes stand for.
#![tactic(auto)]

ghost use Rattle.std.specs.Prelude.{◌≡◌, ℕ, ◌+◌, ◌*◌, ◌/◌, ◌≤◌, ◌<◌, length, get_or, replicate};
ghost use Rattle.std.specs.Float.{nan, binary32, binary64};
ghost use Rattle.std.specs.Float.Ieee.{mul};
ghost use Rattle.error.specs.Numbers.{outcome, completed, if_completed, accepted, contents};
ghost use Rattle.ieee.specs.Sum.{plus_zero};
ghost use Rattle.slices.specs.Limit.{first_not_finite};
ghost use Rattle.slices.specs.Lists.{tabulate};
ghost use Rattle.narrow.specs.Pack.{narrow_to};
ghost use Rattle.bitpack.specs.Packed.{index_in, indices_in};
ghost use Rattle.compact.specs.Frame.{parsed, parts_of};
ghost use Rattle.profile.specs.Valid.{Valid};
ghost use Rattle.decode.specs.Work.{Binary32, Reconstructible};
ghost use Rattle.decode.specs.Decode.{rotated, decoded, lengths, values, below, indexed, only_finite, decode_call_of, readable, decodable, decoding};

use bitpack::{BitReader, PackedIndices};
use compact::CompactFrame;
use error::{Refusal, Slice};
use profile::{FibQuantProfile, GivenProfile};

// The most that a value of the matrix may be in size: 2^20.
const MATRIX_LIMIT: f64 = 1_048_576.0;

// A quantiser as it is handed in: its profile, its rotation matrix and its codewords.
#[derive(Clone, Copy)]
pub struct FibQuantizer<'a> {
    pub given: GivenProfile<'a>,
    pub matrix: &'a [f64],
    pub codewords: &'a [f32],
}

// The lengths of matrix, codewords, output and float work.
fn check_lengths(quantizer: FibQuantizer<'_>, output: usize, work: usize) -> Result<(), Refusal>
    ensures { let q = quantizer.entry in
        let p = q.given.profile in
        outcome result ≡ lengths p.ambient_dim p.block_dim p.codebook_size
        (length q.matrix.now) (length q.codewords.now) output work }
{
    let profile = quantizer.given.profile;
    let d = profile.ambient_dim as usize;
    if quantizer.matrix.len() != d * d {
        return Err(Refusal::SliceLength(Slice::Matrix));
    }
    if quantizer.codewords.len() != profile.codebook_size as usize * profile.block_dim as usize {
        return Err(Refusal::SliceLength(Slice::Codewords));
    }
    if output != d {
        return Err(Refusal::SliceLength(Slice::Output));
    }
    if work != 2 * d {
        return Err(Refusal::SliceLength(Slice::FloatWork));
    }
    Ok(())
}

// Public only for the encoder's crate: the codewords finite, and the matrix within its limit.
#[tactic(auto, unfolding(crate::specs::Decode::values))]
pub fn check_values(quantizer: FibQuantizer<'_>) -> Result<(), Refusal>
    ensures { outcome result ≡ values quantizer.entry.matrix.now quantizer.entry.codewords.now }
{
    slices::check_finite(quantizer.codewords, Slice::Codewords)?;
    slices::check_within(quantizer.matrix, MATRIX_LIMIT, Slice::Matrix)
}

// The first of the packed indices that is not below n is refused.
// Nothing is kept of the others: there is no room for them.
#[tactic(auto, using(bitpack::proofs::Steps::pullable))]
fn check_below(packed: PackedIndices<'_>, n: u32) -> Result<(), Refusal>
    ensures { outcome result ≡ below n (indices_in packed.entry) }
{
    let mut reader = BitReader::new(packed.bytes);
    for _i in 0..packed.count {
        let index = reader.pull(packed.width);
        if n <= index {
            return Err(Refusal::IndexOutOfRange { index, bound: n });
        }
    }
    Ok(())
}

// The frame's header against the profile's numbers, its padding bits, and its indices.
#[tactic(auto, unfolding(crate::specs::Decode::indexed, compact::specs::Expected::expected), using(compact::proofs::FrameLaws::length_indices))]
fn check_indices(profile: FibQuantProfile, bytes: &[u8], frame: CompactFrame) -> Result<(), Refusal>
    requires valid { Valid profile }
    requires frame { parsed bytes.now ≡ completed (parts_of bytes.now frame) }
    ensures { outcome result ≡ indexed profile.wire_index_bits
        (profile.ambient_dim / profile.block_dim) profile.codebook_size (parts_of bytes.now frame) }
{
    let width = profile.wire_index_bits;
    let count = profile.ambient_dim / profile.block_dim;
    compact::check_expected(bytes, frame, width, count)?;
    let packed = PackedIndices {
        bytes: compact::index_part(bytes, frame),
        width: frame.width,
        count: frame.block_count as usize,
    };
    check_below(packed, profile.codebook_size)
}

// Every check of a parsed frame, and the value of its norm.
#[tactic(auto, unfolding(crate::specs::Decode::readable_by), using(profile::proofs::Facts::valid))]
fn read_code(
    quantizer: FibQuantizer<'_>,
    bytes: &[u8],
    frame: CompactFrame,
    output: usize,
    work: usize,
) -> Result<f64, Refusal>
    requires { parsed bytes.now ≡ completed (parts_of bytes.now frame) }
    ensures { let c = decode_call_of quantizer.entry bytes.now output work in
        outcome result ≡ readable c (parts_of bytes.now frame) }
{
    quantizer.given.validate()?;
    check_lengths(quantizer, output, work)?;
    check_values(quantizer)?;
    check_indices(quantizer.given.profile, bytes, frame)?;
    norm::decode_norm(compact::norm_part(bytes, frame))
}

// The codewords of the packed indices, widened, one after another.
#[tactic(auto, using(bitpack::proofs::Steps::pullable))]
fn gather(quantizer: FibQuantizer<'_>, packed: PackedIndices<'_>, output: &mut [f64])
    requires { let k = quantizer.given.profile.block_dim in
        (packed.count * k ≡ length output.old)
        × ((i : ℕ) → i < packed.count → index_in packed i * k + k ≤ length quantizer.codewords.now) }
    ensures { let q = quantizer.entry in
        output.new ≡ rotated (length output.old) q.given.profile.block_dim q.codewords.now (indices_in packed.entry) }
{
    let k = quantizer.given.profile.block_dim as usize;
    let mut reader = BitReader::new(packed.bytes);
    for i in 0..packed.count {
        let index = reader.pull(packed.width);
        codebook::widen_row(quantizer.codewords, index as usize * k, k, output, i * k);
    }
}

// Each value times the norm, rounded to binary32; answers the first that is not finite.
#[tactic(auto, unfolding(slices::specs::Lists::patched, slices::specs::First::first_where))]
fn scale(norm: f64, values: &mut [f64]) -> Option<usize>
    ensures bad { result ≡ first_not_finite values.new }
    ensures values_after { values.new ≡ tabulate (length values.old)
        (λ i. narrow_to binary32 (mul binary64 (get_or values.old i nan) norm)) }
{
    let mut bad = None;
    for (i, value) in values.iter_mut().enumerate() {
        let x = narrow::f64_to_f32(*value * norm);
        *value = narrow::f32_to_f64(x);
        bad = bad.or((!ieee::is_finite_f32(x)).then_some(i));
    }
    bad
}

// Finite values of binary32 into the output.
#[tactic(auto, using(slices::proofs::ListLaw::patched_more), unfolding(slices::specs::Lists::patched))]
fn copy_out(values: &[f64], output: &mut [f32])
    requires lengths { length values.now ≡ length output.old }
    requires by_index { (i : ℕ) → i < length values.now → Binary32 (get_or values.now i nan) }
    ensures { output.new ≡ values.now }
{
    for (i, value) in output.iter_mut().enumerate() {
        *value = values[i] as f32;
    }
}

// The values that packed indices and a norm stand for, into the output, unless one of them is not finite.
// The first half of the work takes the codewords, the second what they are rotated back to. The work is zeroed.
fn reconstruct(
    quantizer: FibQuantizer<'_>,
    packed: PackedIndices<'_>,
    norm: f64,
    output: &mut [f32],
    work: &mut [f64],
) -> Result<(), Refusal>
    requires { Reconstructible quantizer packed (length output.old) (length work.old) }
    ensures { let q = quantizer.entry in
        let answer = only_finite (decoded (length output.old) q.given.profile.block_dim
        q.matrix.now q.codewords.now (indices_in packed.entry) norm) in
        (outcome result ≡ accepted answer)
        × (output.new ≡ contents answer output.old)
        × (work.new ≡ replicate (length work.old) plus_zero) }
{
    let (vector, rotated) = work.split_at_mut(output.len());
    gather(quantizer, packed, vector);
    rotation::rotate_back(quantizer.matrix, vector, rotated);
    let answer = match scale(norm, rotated) {
        Some(place) => Err(Refusal::NonFiniteInput(place as u64)),
        None => {
            copy_out(rotated, output);
            Ok(())
        }
    };
    slices::zero_f64(work);
    answer
}

// The vector that a frame stands for. A refusal leaves both buffers as
// they were, but a value that is not finite (12) has the work zeroed.
pub fn decode(
    quantizer: FibQuantizer<'_>,
    bytes: &[u8],
    output: &mut [f32],
    work: &mut [f64],
) -> Result<(), Refusal>
    ensures { let c = decode_call_of quantizer.entry bytes.now
        (length output.old) (length work.old) in
        (outcome result ≡ accepted (decoding c))
        × (output.new ≡ contents (decoding c) output.old)
        × (work.new ≡ if_completed (decodable c)
        (replicate (length work.old) plus_zero) work.old) }
{
    let frame = compact::parse_compact(bytes)?;
    let norm = read_code(quantizer, bytes, frame, output.len(), work.len())?;
    let packed = PackedIndices {
        bytes: compact::index_part(bytes, frame),
        width: frame.width,
        count: frame.block_count as usize,
    };
    reconstruct(quantizer, packed, norm, output, work)
}
