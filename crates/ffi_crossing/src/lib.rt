// How answers cross: a number is returned, and values are written to room that the host lends, all of it in every case.
// specs/Crossing.antt says what stands where. The functions are public only for the crates of the exports.
#![tactic(auto)]

ghost use Rattle.std.specs.Prelude.{◌≡◌, List, [], ◌∷◌};
ghost use Rattle.error.specs.Numbers.{Value, refusal, outcome};
ghost use Rattle.ffi_crossing.specs.Crossing.{found, row_found, crossing, crossed, none, one_whole, one_real};
ghost use Rattle.ieee.specs.Sum.{plus_zero};

use error::Refusal;

// Writes the values, and hands the number back.
pub fn put(
    number: u32,
    wholes: [u64; 4],
    reals: [f64; 2],
    whole: &mut [u64; 4],
    real: &mut [f64; 2],
) -> u32
    ensures { found result whole.new real.new ≡ found number wholes reals }
{
    *whole = wholes;
    *real = reals;
    number
}

// A refusal's row of the table: its number and its values, of which there are two of each kind at most.
#[derive(Clone, Copy)]
struct Row {
    number: u32,
    first: u64,
    second: u64,
    given: f64,
    expected: f64,
}

// A row with no real value.
fn plain(number: u32, first: u64, second: u64) -> Row
    ensures { row_found result ≡ found number (first ∷ second ∷ 0 ∷ 0 ∷ []) (plus_zero ∷ plus_zero ∷ []) }
{
    Row {
        number,
        first,
        second,
        given: 0.0,
        expected: 0.0,
    }
}

impl From<Refusal> for Row {
    ghost from_gives = { λ cause row. row_found row ≡ crossed none (refusal cause) };

    #[tactic(auto, unfolding(crate::specs::Crossing::whole_values, crate::specs::Crossing::real_values))]
    fn from(cause: Refusal) -> Row {
        match cause {
            Refusal::ZeroDimension => plain(1, 0, 0),
            Refusal::InvalidBlockDim {
                ambient_dim,
                block_dim,
            } => plain(2, ambient_dim, block_dim),
            Refusal::DimensionNotDivisible {
                ambient_dim,
                block_dim,
            } => plain(3, ambient_dim, block_dim),
            Refusal::InvalidCodebookSize(n) => plain(4, n, 0),
            Refusal::ResourceLimitExceeded => plain(5, 0, 0),
            Refusal::ProfileField(field) => plain(6, field as u64, 0),
            Refusal::ProfileRate {
                field,
                given,
                expected,
            } => Row {
                given,
                expected,
                ..plain(6, field as u64, 0)
            },
            Refusal::SliceLength(slice) => plain(7, slice as u64, 0),
            Refusal::CompactFrame(site) => plain(8, site as u64, 0),
            Refusal::PackedIndices(site) => plain(9, site as u64, 0),
            Refusal::Norm => plain(10, 0, 0),
            Refusal::IndexOutOfRange { index, bound } => plain(11, index as u64, bound as u64),
            Refusal::NonFiniteInput(place) => plain(12, place, 0),
            Refusal::ZeroNorm => plain(13, 0, 0),
            Refusal::EmptyCells(cells) => plain(14, cells, 0),
            Refusal::NoDonor(cell) => plain(15, cell, 0),
            Refusal::NoDirection(donor) => plain(16, donor, 0),
            Refusal::CodeHeader => plain(17, 0, 0),
            Refusal::OutOfBounds { slice, place } => plain(18, slice as u64, place),
            Refusal::EventSlotsUsed(slots) => plain(19, slots, 0),
            Refusal::Report(site) => plain(20, site as u64, 0),
            Refusal::InvalidRadius => plain(21, 0, 0),
            Refusal::InexactNorm => plain(27, 0, 0),
        }
    }
}

// A refusal, by the table's number and values.
pub fn put_refusal(cause: Refusal, whole: &mut [u64; 4], real: &mut [f64; 2]) -> u32
    ensures { found result whole.new real.new ≡ crossed none (refusal cause) }
{
    let row = Row::from(cause);
    put(
        row.number,
        [row.first, row.second, 0, 0],
        [row.given, row.expected],
        whole,
        real,
    )
}

// A result that crosses as values.
pub trait Crosses {
    ghost values: { Self → List Value };

    // Writes them, under the number of a completed call.
    fn put(self, whole: &mut [u64; 4], real: &mut [f64; 2]) -> u32
        ensures { found result whole.new real.new ≡ crossing 0 (values self) };
}

impl Crosses for () {
    ghost values = { none };

    #[tactic(auto, unfolding(crate::specs::Crossing::whole_values, crate::specs::Crossing::real_values))]
    fn put(self, whole: &mut [u64; 4], real: &mut [f64; 2]) -> u32 {
        put(0, [0; 4], [0.0; 2], whole, real)
    }
}

impl Crosses for u64 {
    ghost values = { one_whole };

    #[tactic(auto, unfolding(crate::specs::Crossing::whole_values, crate::specs::Crossing::real_values))]
    fn put(self, whole: &mut [u64; 4], real: &mut [f64; 2]) -> u32 {
        put(0, [self, 0, 0, 0], [0.0; 2], whole, real)
    }
}

// Kept: an impl for each width, as std's From has: one over all that u64 takes would take in f64 and () for the check.
impl Crosses for u32 {
    ghost values = { one_whole };

    fn put(self, whole: &mut [u64; 4], real: &mut [f64; 2]) -> u32 {
        u64::from(self).put(whole, real)
    }
}

impl Crosses for u16 {
    ghost values = { one_whole };

    fn put(self, whole: &mut [u64; 4], real: &mut [f64; 2]) -> u32 {
        u64::from(self).put(whole, real)
    }
}

impl Crosses for u8 {
    ghost values = { one_whole };

    fn put(self, whole: &mut [u64; 4], real: &mut [f64; 2]) -> u32 {
        u64::from(self).put(whole, real)
    }
}

impl Crosses for f64 {
    ghost values = { one_real };

    #[tactic(auto, unfolding(crate::specs::Crossing::whole_values, crate::specs::Crossing::real_values))]
    fn put(self, whole: &mut [u64; 4], real: &mut [f64; 2]) -> u32 {
        put(0, [0; 4], [self, 0.0], whole, real)
    }
}

// The answer of a call: the values of its result, or its refusal.
pub fn put_answer<T: Crosses>(
    answer: Result<T, Refusal>,
    whole: &mut [u64; 4],
    real: &mut [f64; 2],
) -> u32
    ensures { found result whole.new real.new ≡ crossed T.values (outcome answer) }
{
    match answer {
        Ok(value) => value.put(whole, real),
        Err(refusal) => put_refusal(refusal, whole, real),
    }
}
