// Answers: what a call gave, or its refusal by number and values.
use crate::reader::{Item, Malformed, Reader};
use error::{Refusal, Slice};

#[derive(Clone, Copy, Debug, PartialEq)]
pub struct Refused {
    number: u8,
    values: [u64; 2],
}

// Kept: numbers of its own, which the recorded file has, so that the library's table is checked and not repeated.
impl From<Refusal> for Refused {
    fn from(refusal: Refusal) -> Refused {
        let (number, values) = match refusal {
            Refusal::ZeroDimension => (1, [0, 0]),
            Refusal::InvalidBlockDim {
                ambient_dim,
                block_dim,
            } => (2, [ambient_dim, block_dim]),
            Refusal::DimensionNotDivisible {
                ambient_dim,
                block_dim,
            } => (3, [ambient_dim, block_dim]),
            Refusal::InvalidCodebookSize(n) => (4, [n, 0]),
            Refusal::ResourceLimitExceeded => (5, [0, 0]),
            Refusal::SliceLength(slice) => (7, [slice as u64, 0]),
            Refusal::CompactFrame(site) => (8, [site as u64, 0]),
            Refusal::PackedIndices(site) => (9, [site as u64, 0]),
            Refusal::IndexOutOfRange { index, bound } => {
                (11, [u64::from(index), u64::from(bound)])
            }
            // No record has any other.
            _ => (99, [0, 0]),
        };
        Refused { number, values }
    }
}

// The start of a recorded answer: the number 0 and nothing more, where the result
// follows, or the number of a refusal and its two values.
pub fn refusal(reader: &mut Reader<'_>) -> Result<Option<Refused>, Malformed> {
    let number = reader.u8()?;
    if number == 0 {
        return Ok(None);
    }
    let values = [reader.u64()?, reader.u64()?];
    Ok(Some(Refused { number, values }))
}

// Whether an answer is the one recorded, of which `read_result` reads the result.
pub(crate) fn is_recorded<'a, T, F>(
    reader: &mut Reader<'a>,
    answer: Result<T, Refusal>,
    read_result: F,
) -> Result<bool, Malformed>
where
    T: Copy + PartialEq,
    F: FnOnce(&mut Reader<'a>) -> Result<T, Malformed>,
    requires { F.IsAlwaysCallable read_result }
{
    let recorded = match refusal(reader)? {
        None => Ok(read_result(reader)?),
        Some(refused) => Err(refused),
    };
    Ok(answer.map_err(Refused::from) == recorded)
}

// An output's length (1 byte), and what a call that writes it answers; `out` holds what the call has to leave alone.
pub(crate) fn lent<T, F, const N: usize>(
    reader: &mut Reader<'_>,
    out: &mut [T; N],
    call: F,
) -> Result<(usize, Result<(), Refusal>), Malformed>
where
    F: FnOnce(&mut [T]) -> Result<(), Refusal>,
    requires call { F.IsAlwaysCallable call }
{
    let len = usize::from(reader.u8()?);
    let answer = out
        .get_mut(..len)
        .ok_or(Refusal::SliceLength(Slice::Output))
        .and_then(call);
    Ok((len, answer))
}

// Whether a call that writes an output answers and writes as recorded: the output's length (1 byte), answer, values.
// What the call leaves alone holds a pattern before it and has to hold it after.
pub(crate) fn output<T, F, G, const N: usize>(
    reader: &mut Reader<'_>,
    pattern: [T; N],
    call: F,
    alike: G,
) -> Result<bool, Malformed>
where
    T: Item,
    F: FnOnce(&mut [T]) -> Result<(), Refusal>,
    G: FnOnce(&[T], &[T]) -> bool,
    requires call { F.IsAlwaysCallable call }
    requires alike { G.IsAlwaysCallable alike }
{
    let mut out = pattern;
    let (len, answer) = lent(reader, &mut out, call)?;
    let mut expected = pattern;
    let answered = is_recorded(reader, answer, |r| {
        r.values(len, &mut expected).map(|_| ())
    })?;
    Ok(answered && alike(&out, &expected))
}
