// Cases of IEEE 754's rules for conversions and roots, and worked cases of
// documents 01 and 02, run through the proved libraries.
// A line for each: its name, and the result's bits in hexadecimal; a
// count in decimal; a refusal by its number, 0 where there is none.
// What has to come out, the file stdout, is not this program's own: host/expected writes
// it, from the processor's conversions, roots and sums, for binary16 from
// whole numbers, and from the numbers that documents 01 and 02 state.
#![tactic(auto)]

mod narrowing;
mod roots;
mod shapes;
mod sums;

use error::Refusal;
use std::io;

// The number of a refusal that a shape or a norm can meet. Kept: a table of its own beside the one that it is held to.
fn number(refusal: Refusal) -> u64 {
    match refusal {
        Refusal::ZeroDimension => 1,
        Refusal::InvalidBlockDim { .. } => 2,
        Refusal::DimensionNotDivisible { .. } => 3,
        Refusal::InvalidCodebookSize(_) => 4,
        Refusal::ResourceLimitExceeded => 5,
        Refusal::Norm => 10,
        _ => 99,
    }
}

fn main(rt: HostRuntime) -> io::Result<()> {
    narrowing::to_binary32(&rt)?;
    narrowing::to_binary16(&rt)?;
    narrowing::from_binary16(&rt)?;
    narrowing::norms(&rt)?;
    roots::roots(&rt)?;
    shapes::default_samples(&rt)?;
    shapes::profiles(&rt)?;
    sums::errors(&rt)?;
    sums::rotations(&rt)
}
