// Indices of a fixed width packed into bytes, low bit first, and read back.
#![tactic(auto)]

mod packed;

ghost use Rattle.std.specs.Prelude.{◌≡◌, List, ℕ, ◌+◌, ◌*◌, ◌-◌, ◌^◌, ◌≤◌, ◌<◌, length, get_or, nat_lt};
ghost use Rattle.std.specs.List.{find};
ghost use Rattle.error.specs.Numbers.{outcome, if_completed};
ghost use Rattle.slices.specs.Lists.{filled};
ghost use Rattle.bitpack.specs.Layout.{field, byte_of, bytes_for, packed_bytes, unpacked_indices, padding_from};
ghost use Rattle.bitpack.specs.Answers.{packed_size, packable, unpackable};
ghost use Rattle.bitpack.specs.Packed.{indices_in};
ghost use Rattle.bitpack.specs.Cursor.{ReaderAt, Pullable, PulledAt, WriterAt, Pushable, Finishable};

use error::{PackingSite, Refusal, Slice};
pub use packed::PackedIndices;

// A place in a packed byte string, made by `new` and moved by `pull`: bit number
// `bit` of byte number `byte`, counted side by side so that no place is divided.
#[derive(Clone, Copy)]
pub struct BitReader<'a> {
    bytes: &'a [u8],
    byte: usize,
    bit: u64,
}

// A place in a byte string that is being packed, made by `new` and moved by
// `push`: `at` is the next byte to write, `acc` the `have` bits that await it.
#[derive(Clone, Copy)]
pub struct BitWriter {
    at: usize,
    acc: u64,
    have: u64,
}

impl<'a> BitReader<'a> {
    // At the start of a byte string.
    pub fn new(bytes: &'a [u8]) -> BitReader<'a>
        ensures { ReaderAt bytes.now 0 result }
    {
        BitReader {
            bytes,
            byte: 0,
            bit: 0,
        }
    }

    // The next `width` bits: the rest of this byte, and whole bytes above it as long
    // as too few bits are held. Public only for the codec.
    #[tactic(auto, using(crate::proofs::Steps::shifted, crate::proofs::Steps::load_small, crate::proofs::Packing::field_rest, crate::proofs::Steps::held_next, crate::proofs::Steps::held_small, crate::proofs::Steps::held_taken))]
    pub fn pull(&mut self, width: u8) -> u32
        requires { Pullable width self.old }
        ensures { (bytes : List ℕ) (p : ℕ) → ReaderAt bytes p self.old
            → PulledAt bytes p width result self.new }
    {
        let w = width as u64;
        let bytes = self.bytes;
        let mut byte = self.byte;
        let mut held = (bytes[byte] as u64) >> self.bit;
        let mut have = 8 - self.bit;
        // Kept: it stops at so many bits, and no list or range is walked to its end.
        while have < w {
            byte += 1;
            held += (bytes[byte] as u64) << have;
            have += 8;
        }
        let mask = (1u64 << w) - 1;
        // The top `have - w` bits of the last byte are left for the next pull.
        let mut bit = 8 - (have - w);
        if bit == 8 {
            byte += 1;
            bit = 0;
        }
        self.byte = byte;
        self.bit = bit;
        (held & mask) as u32
    }
}

impl BitWriter {
    // At the start of a stream of bits, with nothing written.
    #[tactic(auto, unfolding(crate::specs::Layout::field, crate::specs::Layout::bits, slices::specs::Lists::tabulate))]
    pub fn new() -> BitWriter
        ensures { (f : ℕ → ℕ) (old : List ℕ) → ((j : ℕ) → f j < 2) → WriterAt f 0 old old result }
    {
        BitWriter {
            at: 0,
            acc: 0,
            have: 0,
        }
    }

    // `value` as `width` bits, after what was pushed before. Public only for the codec.
    pub fn push(&mut self, value: u32, width: u8, out: &mut [u8])
        requires { Pushable out.old value width self.old }
        ensures { (f : ℕ → ℕ) (p : ℕ) (old : List ℕ)
            → WriterAt f p old out.old self.old → value ≡ field f p width
            → WriterAt f (p + width) old out.new self.new }
    {
        let w = width as u64;
        let mut at = self.at;
        let low = self.acc;
        let held = self.have;
        let mut acc = low + ((value as u64) << held);
        let mut have = held + w;
        // Kept: as `pull`, by the bits that are held.
        while 8 <= have {
            out[at] = (acc % 256) as u8;
            acc = acc / 256;
            have -= 8;
            at += 1;
        }
        self.at = at;
        self.acc = acc;
        self.have = have;
    }

    // The last byte, if only a part of it was pushed. Public only for the codec.
    #[tactic(auto, using(crate::proofs::Steps::finish_part))]
    pub fn finish(self, out: &mut [u8])
        requires { Finishable out.old self }
        ensures { (f : ℕ → ℕ) (p : ℕ) (old : List ℕ)
            → WriterAt f p old out.old self → ((j : ℕ) → p ≤ j → f j ≡ 0)
            → out.new ≡ filled (bytes_for p) (byte_of f) old }
    {
        let at = self.at;
        if 0 < self.have {
            out[at] = self.acc as u8;
        }
    }
}

// The length of a packing of `count` indices.
#[tactic(auto, unfolding(crate::specs::Answers::packed_size))]
pub fn packed_size(count: u64, width: u8) -> Result<u64, Refusal>
    ensures { outcome result ≡ packed_size count width }
{
    if width < 1 || 32 < width {
        return Err(Refusal::PackedIndices(PackingSite::Width));
    }
    let padded = count
        .checked_mul(width as u64)
        .and_then(|bits| bits.checked_add(7));
    match padded {
        Some(bits) => Ok(bits / 8),
        None => Err(Refusal::ResourceLimitExceeded),
    }
}

// The first index above the bound.
fn first_above(indices: &[u32], bound: u32) -> Option<u32>
    ensures { result ≡ find (λ index. nat_lt bound index) indices.now }
{
    indices.iter().copied().find(|index| bound < *index)
}

// The packing of indices that all fit, into a buffer of its length.
fn write_indices(indices: &[u32], width: u8, output: &mut [u8])
    requires narrow { width ≤ 32 }
    requires fits { (i : ℕ) → get_or indices.now i 0 < 2 ^ width }
    requires sized { length output.old ≡ bytes_for (length indices.now * width) }
    ensures { output.new ≡ packed_bytes indices.now width }
{
    let mut writer = BitWriter::new();
    for index in indices {
        writer.push(*index, width, output);
    }
    writer.finish(output);
}

// The packing of the indices into the output, which has its length.
#[tactic(auto, using(crate::proofs::Checks::size_completed, crate::proofs::Checks::power_positive, crate::proofs::Checks::largest_fits, crate::proofs::Checks::pack_refused, crate::proofs::Checks::pack_done))]
pub fn pack_indices(indices: &[u32], width: u8, output: &mut [u8]) -> Result<(), Refusal>
    ensures { let o = packable indices.now width (length output.old) in
        (outcome result ≡ o)
        × (output.new ≡ if_completed o (packed_bytes indices.now width) output.old) }
{
    let len = packed_size(indices.len() as u64, width)?;
    if output.len() as u64 != len {
        return Err(Refusal::SliceLength(Slice::Output));
    }
    let bound = ((1u64 << width) - 1) as u32;
    if let Some(index) = first_above(indices, bound) {
        return Err(Refusal::IndexOutOfRange { index, bound });
    }
    write_indices(indices, width, output);
    Ok(())
}

// The value of the bits after the first `total`, in a byte string of the length
// that these take: what is left over in its last byte. Public only for the codec.
#[tactic(auto, using(crate::proofs::Packing::padding_none, crate::proofs::Packing::padding_last))]
pub fn padding(bytes: &[u8], total: u64) -> u64
    requires { length bytes.now ≡ bytes_for total }
    ensures { result ≡ padding_from bytes.now total }
{
    let len = bytes.len();
    if len == 0 {
        return 0;
    }
    let used = total - 8 * (len as u64 - 1);
    (bytes[len - 1] as u64) >> used
}

// The packed indices into the output, which has room for just these.
#[tactic(auto, using(crate::proofs::Steps::pullable), unfolding(slices::specs::Lists::tabulate))]
fn read_indices(packed: PackedIndices<'_>, output: &mut [u32])
    requires { length output.old ≡ packed.count }
    ensures { output.new ≡ indices_in packed.entry }
{
    let mut reader = BitReader::new(packed.bytes);
    for index in output.iter_mut() {
        *index = reader.pull(packed.width);
    }
}

// The `count` indices of a packing into the output, which has room
// for just these. A packing with a padding bit set is refused.
#[tactic(auto, using(crate::proofs::Checks::size_completed))]
pub fn unpack_indices(
    bytes: &[u8],
    count: u64,
    width: u8,
    output: &mut [u32],
) -> Result<(), Refusal>
    ensures { let o = unpackable bytes.now count width (length output.old) in
        (outcome result ≡ o)
        × (output.new
        ≡ if_completed o (unpacked_indices bytes.now count width) output.old) }
{
    let len = packed_size(count, width)?;
    if bytes.len() as u64 != len {
        return Err(Refusal::PackedIndices(PackingSite::Length));
    }
    let spare = padding(bytes, count * width as u64);
    if spare != 0 {
        return Err(Refusal::PackedIndices(PackingSite::PaddingBit));
    }
    if output.len() as u64 != count {
        return Err(Refusal::SliceLength(Slice::Output));
    }
    let packed = PackedIndices {
        bytes,
        width,
        count: output.len(),
    };
    read_indices(packed, output);
    Ok(())
}
