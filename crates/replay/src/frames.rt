// Records of frames, written and parsed.
use crate::answer;
use crate::answer::Refused;
use crate::reader::{Malformed, Reader};

// width (1 byte), block count (4), norm length (1), norm, length
// of the indices (1), indices, output length (1), answer, output, which stands after a refusal too
pub fn write(reader: &mut Reader<'_>) -> Result<bool, Malformed> {
    let width = reader.u8()?;
    let block_count = reader.u32()?;
    let mut norm_room = [0; 64];
    let norm = reader.list(&mut norm_room)?;
    let mut index_room = [0; 64];
    let indices = reader.list(&mut index_room)?;
    let call = |out: &mut [u8]| compact::write_compact(width, block_count, norm, indices, out);
    let mut out = [0xA5; 64];
    let (len, answer) = answer::lent(reader, &mut out, call)?;
    let refused = answer::refusal(reader)?;
    let mut expected = [0xA5; 64];
    reader.values(len, &mut expected)?;
    Ok(answer.err().map(Refused::from) == refused && out == expected)
}

// A frame by its parts.
#[derive(Clone, Copy, Debug, PartialEq)]
struct Frame<'a> {
    width: u8,
    block_count: u32,
    norm: &'a [u8],
    indices: &'a [u8],
}

// length (1 byte), bytes, answer, width (1), block count (4), norm
// length (1), norm, length of the indices (1), indices
pub fn parse(reader: &mut Reader<'_>) -> Result<bool, Malformed> {
    let mut room = [0; 64];
    let bytes = reader.list(&mut room)?;
    let found = compact::parse_compact(bytes)
        .map(|frame| Frame {
            width: frame.width,
            block_count: frame.block_count,
            norm: compact::norm_part(bytes, frame),
            indices: compact::index_part(bytes, frame),
        })
        .map_err(Refused::from);
    if let Some(refused) = answer::refusal(reader)? {
        return Ok(found == Err(refused));
    }
    // Where the call refuses what the Rust did not, the parts are left unread.
    if found.is_err() {
        return Ok(false);
    }
    let mut norm_room = [0; 64];
    let mut index_room = [0; 64];
    let recorded = Frame {
        width: reader.u8()?,
        block_count: reader.u32()?,
        norm: reader.list(&mut norm_room)?,
        indices: reader.list(&mut index_room)?,
    };
    Ok(found == Ok(recorded))
}
