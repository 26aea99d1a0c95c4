// The compact frame: its bytes written into a lent buffer, parsed where they lie, and held to what is expected of them.
// specs/Frame.antt has the layout.
#![tactic(auto)]

ghost use Rattle.std.specs.Prelude.{◌≡◌, ◌++◌, ◌+◌, ◌*◌, ◌≤◌, ◌<◌, length, take, drop};
ghost use Rattle.error.specs.Numbers.{outcome, completed, if_completed};
ghost use Rattle.bitpack.specs.Layout.{bytes_for};
ghost use Rattle.compact.specs.Frame.{header, frame_of};
ghost use Rattle.compact.specs.Frame.{parsed, writing, parts_of, outcome_of, Within};
ghost use Rattle.compact.specs.Expected.{expected};

use error::{FrameSite, PackingSite, Refusal, Slice};

// The bytes before the norm.
const HEADER_LENGTH: usize = 11;

const VERSION: u8 = 1;

// A parsed header. The norm and the indices are parts of the bytes that it was parsed from: norm_part, index_part.
#[derive(Clone, Copy)]
pub struct CompactFrame {
    pub width: u8,
    pub block_count: u32,
    pub norm_len: u16,
}

// Copies part into output from the place at on. Public only for who writes a frame in place.
pub fn write_part(part: &[u8], output: &mut [u8], at: usize)
    requires { at + length part.now ≤ length output.old }
    ensures { output.new
        ≡ take at output.old
        ++ part.now
        ++ drop (at + length part.now) output.old }
{
    // Kept: byte by byte here, and value by value where a codebook is copied, since std's copy is C's memmove, which no
    // archive for C has needed.
    for (i, byte) in part.iter().enumerate() {
        output[at + i] = *byte;
    }
}

// Writes the first 11 bytes of a frame. Public only for the encoder's crate, which writes its frame in place.
#[tactic(auto, unfolding(crate::specs::Frame::header, slices::specs::Bytes::bytes_of))]
pub fn write_header(width: u8, count: u32, norm_len: u16, output: &mut [u8])
    requires { 11 ≤ length output.old }
    ensures { output.new ≡ header width count norm_len ++ drop 11 output.old }
{
    let [count0, count1, count2, count3] = count.to_le_bytes();
    let [norm_len0, norm_len1] = norm_len.to_le_bytes();
    let head = [
        b'F', b'B', b'1', VERSION, width, count0, count1, count2, count3, norm_len0, norm_len1,
    ];
    write_part(&head, output, 0);
}

// Writes a whole frame; output must be exactly as long as it.
#[tactic(auto, unfolding(crate::specs::Frame::writing))]
pub fn write_compact(
    width: u8,
    count: u32,
    norm: &[u8],
    indices: &[u8],
    output: &mut [u8],
) -> Result<(), Refusal>
    ensures { let o = writing norm.now indices.now output.old in
        (outcome result ≡ o)
        × (output.new
        ≡ if_completed o (frame_of width count norm.now indices.now) output.old) }
{
    let Ok(norm_len) = u16::try_from(norm.len()) else {
        return Err(Refusal::SliceLength(Slice::Norm));
    };
    let start = HEADER_LENGTH + norm.len();
    if output.len() != start + indices.len() {
        return Err(Refusal::SliceLength(Slice::Output));
    }
    write_header(width, count, norm_len, output);
    write_part(norm, output, HEADER_LENGTH);
    write_part(indices, output, start);
    Ok(())
}

// The bytes that count indices of width bits take.
fn packed_length(width: u8, count: u32) -> usize
    ensures { result ≡ bytes_for (count * width) }
{
    ((count as usize) * (width as usize) + 7) / 8
}

// The header at the front of a frame, whose bytes are all there.
#[tactic(auto, unfolding(crate::specs::Frame::parsed, slices::specs::Bytes::number_of))]
pub fn parse_compact(bytes: &[u8]) -> Result<CompactFrame, Refusal>
    ensures result_value { outcome_of bytes.now result ≡ parsed bytes.now }
    ensures within { Within bytes.now result }
{
    let &[m0, m1, m2, version, width, c0, c1, c2, c3, n0, n1, ..] = bytes else {
        return Err(Refusal::CompactFrame(FrameSite::Short));
    };
    if [m0, m1, m2] != *b"FB1" {
        return Err(Refusal::CompactFrame(FrameSite::Magic));
    }
    if version != VERSION {
        return Err(Refusal::CompactFrame(FrameSite::Version));
    }
    let block_count = u32::from_le_bytes([c0, c1, c2, c3]);
    let norm_len = u16::from_le_bytes([n0, n1]);
    let start = HEADER_LENGTH + norm_len as usize;
    if bytes.len() < start {
        return Err(Refusal::CompactFrame(FrameSite::NormCutOff));
    }
    if bytes.len() - start != packed_length(width, block_count) {
        return Err(Refusal::CompactFrame(FrameSite::IndexLength));
    }
    Ok(CompactFrame {
        width,
        block_count,
        norm_len,
    })
}

// The bytes from the place at on, none if it lies past the end.
fn tail(bytes: &[u8], at: usize) -> &[u8]
    ensures { result.now ≡ drop at bytes.now }
{
    &bytes[at.min(bytes.len())..]
}

// The first n bytes, all if there are fewer.
fn front(bytes: &[u8], n: usize) -> &[u8]
    ensures { result.now ≡ take n bytes.now }
{
    &bytes[..n.min(bytes.len())]
}

// The norm of a parsed frame.
pub fn norm_part<'a>(bytes: &'a [u8], frame: CompactFrame) -> &'a [u8]
    ensures { result.now ≡ take frame.norm_len (drop 11 bytes.now) }
{
    let n = frame.norm_len;
    front(tail(bytes, HEADER_LENGTH), n as usize)
}

// The packed indices of a parsed frame.
pub fn index_part<'a>(bytes: &'a [u8], frame: CompactFrame) -> &'a [u8]
    ensures { result.now ≡ drop (11 + frame.norm_len) bytes.now }
{
    let n = frame.norm_len;
    tail(bytes, HEADER_LENGTH + n as usize)
}

// A parsed frame against the width and the number of blocks that its reader expects, and its
// padding bits. Public only for the crates that read a frame under a profile.
#[tactic(auto, unfolding(crate::specs::Expected::expected), using(crate::proofs::FrameLaws::length_indices))]
pub fn check_expected(
    bytes: &[u8],
    frame: CompactFrame,
    width: u8,
    count: u32,
) -> Result<(), Refusal>
    requires { parsed bytes.now ≡ completed (parts_of bytes.now frame) }
    ensures { outcome result ≡ expected width count (parts_of bytes.now frame) }
{
    if frame.width != width {
        return Err(Refusal::CodeHeader);
    }
    if frame.block_count != count {
        return Err(Refusal::CodeHeader);
    }
    let total = frame.block_count as u64 * frame.width as u64;
    if bitpack::padding(index_part(bytes, frame), total) != 0 {
        return Err(Refusal::PackedIndices(PackingSite::PaddingBit));
    }
    Ok(())
}
