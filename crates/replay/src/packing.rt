// Records of pack_indices and unpack_indices.
use crate::answer;
use crate::reader::{Malformed, Reader};

// width (1 byte), count (1), indices (4 each), output length (1), answer, output
pub fn pack(reader: &mut Reader<'_>) -> Result<bool, Malformed> {
    let width = reader.u8()?;
    let mut room = [0; 16];
    let indices = reader.list(&mut room)?;
    let call = |out: &mut [u8]| bitpack::pack_indices(indices, width, out);
    answer::output(reader, [0xA5; 64], call, |a, b| a == b)
}

// width (1 byte), count (8), length (1), bytes, output length (1), answer, output (4 each)
pub fn unpack(reader: &mut Reader<'_>) -> Result<bool, Malformed> {
    let width = reader.u8()?;
    let count = reader.u64()?;
    let mut room = [0; 64];
    let bytes = reader.list(&mut room)?;
    let call = |out: &mut [u32]| bitpack::unpack_indices(bytes, count, width, out);
    answer::output(reader, [0xA5A5_A5A5; 16], call, |a, b| a == b)
}
