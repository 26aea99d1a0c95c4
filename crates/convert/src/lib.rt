// A frame with its norm in the other format, as document 02's K9 asks: from the Rust's F32Reference, four bytes, to the two
// of binary16, exactly or not at all, and back. Width, number of blocks and index bytes are carried over as they are.
// specs/Convert.antt has the order of the checks and what is written.
#![tactic(auto)]

ghost use Rattle.std.specs.Prelude.{◌≡◌, ◌≤◌, length};
ghost use Rattle.error.specs.Numbers.{outcome, completed, accepted, contents};
ghost use Rattle.compact.specs.Frame.{parsed, parts_of};
ghost use Rattle.norm.specs.Norm.{norm_value, norm_value_f32};
ghost use Rattle.convert.specs.Convert.{convert_call_of, f16_bytes, checked, norm_by, with_norm, to_f16, to_f32};

use compact::CompactFrame;
use error::Refusal;
use profile::GivenProfile;

// The profile, and the frame against its numbers. The indices are not tested.
#[tactic(auto, unfolding(crate::specs::Convert::checked), using(profile::proofs::Facts::valid))]
fn check_frame(given: GivenProfile<'_>, bytes: &[u8], frame: CompactFrame) -> Result<(), Refusal>
    requires { parsed bytes.now ≡ completed (parts_of bytes.now frame) }
    ensures { let c = convert_call_of given.entry bytes.now in
        outcome result ≡ checked c (parts_of bytes.now frame) }
{
    given.validate()?;
    let width = given.profile.wire_index_bits;
    let count = given.profile.ambient_dim / given.profile.block_dim;
    compact::check_expected(bytes, frame, width, count)
}

// The norm of a frame that has four bytes for it.
#[tactic(auto, unfolding(crate::specs::Convert::norm_by))]
fn read_f32(given: GivenProfile<'_>, bytes: &[u8], frame: CompactFrame) -> Result<f64, Refusal>
    requires { parsed bytes.now ≡ completed (parts_of bytes.now frame) }
    ensures { let c = convert_call_of given.entry bytes.now in
        outcome result ≡ norm_by norm_value_f32 c (parts_of bytes.now frame) }
{
    check_frame(given, bytes, frame)?;
    norm::decode_norm_f32(compact::norm_part(bytes, frame))
}

// And of one that has two.
#[tactic(auto, unfolding(crate::specs::Convert::norm_by))]
fn read_f16(given: GivenProfile<'_>, bytes: &[u8], frame: CompactFrame) -> Result<f64, Refusal>
    requires { parsed bytes.now ≡ completed (parts_of bytes.now frame) }
    ensures { let c = convert_call_of given.entry bytes.now in
        outcome result ≡ norm_by norm_value c (parts_of bytes.now frame) }
{
    check_frame(given, bytes, frame)?;
    norm::decode_norm(compact::norm_part(bytes, frame))
}

// The binary16 pattern whose value is the norm, in bytes; 27 where there is none.
#[tactic(auto, unfolding(crate::specs::Convert::f16_bytes, slices::specs::Bytes::bytes_of))]
fn f16_bytes(norm: f64) -> Result<[u8; 2], Refusal>
    ensures { outcome result ≡ f16_bytes norm }
{
    let bits = narrow::f64_to_f16_bits(norm);
    if narrow::f32_to_f64(narrow::f16_bits_to_f32(bits)) != norm {
        return Err(Refusal::InexactNorm);
    }
    Ok(bits.to_le_bytes())
}

// The frame with another norm, into an output of its length.
fn write_with_norm(
    bytes: &[u8],
    frame: CompactFrame,
    norm: &[u8],
    output: &mut [u8],
) -> Result<(), Refusal>
    requires { length norm.now ≤ 65535 }
    ensures { let o = with_norm (length output.old) (parts_of bytes.now frame) norm.now in
        (outcome result ≡ accepted o)
        × (output.new ≡ contents o output.old) }
{
    let indices = compact::index_part(bytes, frame);
    compact::write_compact(frame.width, frame.block_count, norm, indices, output)
}

// Writes a frame whose norm has four bytes anew, with one of two bytes; 27 where no pattern of binary16 stands for that
// norm. A refusal leaves the output as it was.
pub fn to_f16(given: GivenProfile<'_>, bytes: &[u8], output: &mut [u8]) -> Result<(), Refusal>
    ensures { let o = to_f16 (convert_call_of given.entry bytes.now) (length output.old) in
        (outcome result ≡ accepted o)
        × (output.new ≡ contents o output.old) }
{
    let frame = compact::parse_compact(bytes)?;
    let norm = read_f32(given, bytes, frame)?;
    let norm = f16_bytes(norm)?;
    write_with_norm(bytes, frame, &norm, output)
}

// Writes a frame whose norm has two bytes anew, with one of four. A refusal leaves the output as it was.
#[tactic(auto, unfolding(crate::specs::Convert::f32_bytes, slices::specs::Bytes::bytes_of))]
pub fn to_f32(given: GivenProfile<'_>, bytes: &[u8], output: &mut [u8]) -> Result<(), Refusal>
    ensures { let o = to_f32 (convert_call_of given.entry bytes.now) (length output.old) in
        (outcome result ≡ accepted o)
        × (output.new ≡ contents o output.old) }
{
    let frame = compact::parse_compact(bytes)?;
    let norm = read_f16(given, bytes, frame)?;
    let norm = narrow::f64_to_f32_bits(norm).to_le_bytes();
    write_with_norm(bytes, frame, &norm, output)
}
