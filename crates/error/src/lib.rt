// What every entry point can refuse with: a case for each row of document 01's table of numbers,
// one more for a rate, and document 02's 21 and 27. specs/Numbers.antt sets out the number and the
// values of each case; every contract above that can refuse speaks through it.
#![tactic(auto)]

mod names;

pub use names::{Field, FrameSite, PackingSite, ReportSite, Slice};

// A refusal and the values that its row of the table names.
#[derive(Clone, Copy, Debug, PartialEq)]
pub enum Refusal {
    ZeroDimension,
    InvalidBlockDim {
        ambient_dim: u64,
        block_dim: u64,
    },
    DimensionNotDivisible {
        ambient_dim: u64,
        block_dim: u64,
    },
    InvalidCodebookSize(u64),
    ResourceLimitExceeded,
    // A profile field that does not fit; a rate also shows the value given and the value expected.
    ProfileField(Field),
    ProfileRate {
        field: Field,
        given: f64,
        expected: f64,
    },
    // A lent slice of the wrong length.
    SliceLength(Slice),
    CompactFrame(FrameSite),
    PackedIndices(PackingSite),
    Norm,
    IndexOutOfRange {
        index: u32,
        bound: u32,
    },
    NonFiniteInput(u64),
    ZeroNorm,
    EmptyCells(u64),
    NoDonor(u64),
    NoDirection(u64),
    CodeHeader,
    // A value that is not finite or too large, by slice and place.
    OutOfBounds {
        slice: Slice,
        place: u64,
    },
    EventSlotsUsed(u64),
    Report(ReportSite),
    // A radius that is below zero or not finite.
    InvalidRadius,
    // A norm that binary16 does not hold exactly.
    InexactNorm,
}
