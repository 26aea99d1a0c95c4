// The norm of a code as codec.rs stores it: two bytes, the little-endian binary16 pattern of a finite value above zero; or
// four, that of a binary32 value, in its format F32Reference, which is only read.
#![tactic(auto)]

ghost use Rattle.std.specs.Prelude.{◌≡◌};
ghost use Rattle.error.specs.Numbers.{outcome};
ghost use Rattle.narrow.specs.Format.{unpacked};
ghost use Rattle.norm.specs.Norm.{above_zero, norm_bits, norm_value, norm_value_f32};

use error::Refusal;

// Whether a norm is finite and above zero; a NaN is not.
fn is_positive(norm: f64) -> bool
    ensures { result ≡ above_zero norm }
{
    ieee::is_finite(norm) && 0.0 < norm
}

// Whether a binary16 pattern is that of a finite value above zero: no sign, and between zero's and infinity's.
fn is_norm(bits: u16) -> bool
    ensures { result ≡ above_zero (unpacked 11 15 bits) }
{
    0 < bits && bits < 0x7C00
}

// The binary16 pattern of a norm, rounded once.
#[tactic(auto, unfolding(crate::specs::Norm::norm_bits))]
pub fn encode_norm(norm: f64) -> Result<u16, Refusal>
    ensures { outcome result ≡ norm_bits norm }
{
    if !is_positive(norm) {
        return Err(Refusal::Norm);
    }
    let bits = narrow::f64_to_f16_bits(norm);
    if !is_norm(bits) {
        return Err(Refusal::Norm);
    }
    Ok(bits)
}

// The norm that the two bytes of a payload stand for.
#[tactic(auto, unfolding(crate::specs::Norm::value_of, slices::specs::Bytes::number_of))]
pub fn decode_norm(payload: &[u8]) -> Result<f64, Refusal>
    ensures { outcome result ≡ norm_value payload.now }
{
    let [low, high] = payload else {
        return Err(Refusal::Norm);
    };
    let bits = u16::from_le_bytes([*low, *high]);
    if !is_norm(bits) {
        return Err(Refusal::Norm);
    }
    Ok(narrow::f32_to_f64(narrow::f16_bits_to_f32(bits)))
}

// The norm that the four bytes of a payload stand for in the format F32Reference.
#[tactic(auto, unfolding(crate::specs::Norm::value_of, slices::specs::Bytes::number_of))]
pub fn decode_norm_f32(payload: &[u8]) -> Result<f64, Refusal>
    ensures { outcome result ≡ norm_value_f32 payload.now }
{
    let [a, b, c, d] = payload else {
        return Err(Refusal::Norm);
    };
    let bits = u32::from_le_bytes([*a, *b, *c, *d]);
    let norm = narrow::f32_bits_to_f64(bits);
    if !is_positive(norm) {
        return Err(Refusal::Norm);
    }
    Ok(norm)
}
