// What a refusal names, each by the number that comes back with it: lent slices, profile fields, and the sites of a
// frame, of a packing and of a report. specs/Names.antt has the numbers.

// A lent slice. The codebook of update called alone is the initial one.
#[derive(Clone, Copy, Debug, PartialEq, Eq)]
pub enum Slice {
    Initial = 1,
    Samples = 2,
    Matrix = 3,
    Codewords = 4,
    Input = 5,
    Output = 6,
    FloatWork = 7,
    IntegerWork = 8,
    Events = 9,
    Assignments = 10,
    Norm = 11,
    Right = 12,
}

// A field of a profile.
#[derive(Clone, Copy, Debug, PartialEq, Eq)]
pub enum Field {
    Schema = 1,
    NormFormat = 2,
    SourceMode = 3,
    RotationAlgorithm = 4,
    WireBits = 5,
    PaperRate = 6,
    WireRate = 7,
    MethodPair = 8,
    Restarts = 9,
    Iterations = 10,
    Samples = 11,
}

// Where a compact frame fails.
#[derive(Clone, Copy, Debug, PartialEq, Eq)]
pub enum FrameSite {
    Short = 1,
    Magic = 2,
    Version = 3,
    NormCutOff = 4,
    IndexLength = 5,
}

// Where packed indices fail.
#[derive(Clone, Copy, Debug, PartialEq, Eq)]
pub enum PackingSite {
    Width = 1,
    Length = 2,
    PaddingBit = 3,
}

// Where a report fails.
#[derive(Clone, Copy, Debug, PartialEq, Eq)]
pub enum ReportSite {
    Settings = 1,
    Mse = 2,
    RepairCount = 3,
}
