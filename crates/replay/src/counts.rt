// Records of wire_index_bits and default_training_samples: codebook size (8 bytes), answer, result (4).
use crate::answer;
use crate::reader::{Malformed, Reader};

pub fn wire_bits(reader: &mut Reader<'_>) -> Result<bool, Malformed> {
    let bits = profile::wire_index_bits(reader.u64()?);
    answer::is_recorded(reader, bits.map(u32::from), Reader::u32)
}

pub fn samples(reader: &mut Reader<'_>) -> Result<bool, Malformed> {
    let count = profile::default_training_samples(reader.u64()?);
    answer::is_recorded(reader, count, Reader::u32)
}
