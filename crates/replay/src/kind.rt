// The functions whose answers are recorded.
use crate::reader::Malformed;
use std::fmt;

#[derive(Clone, Copy, Debug, PartialEq)]
pub enum Kind {
    PackIndices,
    UnpackIndices,
    WireIndexBits,
    DefaultTrainingSamples,
    WriteCompact,
    ParseCompact,
    Mse,
    Apply,
    ApplyInverse,
    NearestIndex,
    MseForCodebook,
}

impl Kind {
    pub const ALL: [Kind; 11] = [
        Kind::PackIndices,
        Kind::UnpackIndices,
        Kind::WireIndexBits,
        Kind::DefaultTrainingSamples,
        Kind::WriteCompact,
        Kind::ParseCompact,
        Kind::Mse,
        Kind::Apply,
        Kind::ApplyInverse,
        Kind::NearestIndex,
        Kind::MseForCodebook,
    ];
}

impl TryFrom<u8> for Kind {
    type Error = Malformed;

    fn try_from(byte: u8) -> Result<Kind, Malformed> {
        match byte {
            1 => Ok(Kind::PackIndices),
            2 => Ok(Kind::UnpackIndices),
            3 => Ok(Kind::WireIndexBits),
            4 => Ok(Kind::DefaultTrainingSamples),
            5 => Ok(Kind::WriteCompact),
            6 => Ok(Kind::ParseCompact),
            7 => Ok(Kind::Mse),
            8 => Ok(Kind::Apply),
            9 => Ok(Kind::ApplyInverse),
            10 => Ok(Kind::NearestIndex),
            11 => Ok(Kind::MseForCodebook),
            _ => Err(Malformed::UnknownKind(byte)),
        }
    }
}

impl fmt::Display for Kind {
    fn fmt<W: fmt::Write>(&self, f: &mut fmt::Formatter<W>) -> fmt::Result {
        f.write_str(match self {
            Kind::PackIndices => "pack_indices",
            Kind::UnpackIndices => "unpack_indices",
            Kind::WireIndexBits => "wire_index_bits",
            Kind::DefaultTrainingSamples => "default_training_samples",
            Kind::WriteCompact => "write_compact",
            Kind::ParseCompact => "parse_compact",
            Kind::Mse => "mse",
            Kind::Apply => "apply",
            Kind::ApplyInverse => "apply_inverse",
            Kind::NearestIndex => "nearest_index",
            Kind::MseForCodebook => "mse_for_codebook",
        })
    }
}
