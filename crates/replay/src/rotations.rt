// Records of apply and apply_inverse: dimension (8 bytes), length (1) and values (8 each) of the matrix, the same of
// the input, output length (1), answer, output (8 each).
use crate::answer;
use crate::reader::{Malformed, Reader};
use error::Refusal;

fn replay<F, G>(reader: &mut Reader<'_>, rotate: F, alike: G) -> Result<bool, Malformed>
where
    F: FnOnce(u64, &[f64], &[f64], &mut [f64]) -> Result<(), Refusal>,
    G: FnOnce(&[f64], &[f64]) -> bool,
    requires rotate { F.IsAlwaysCallable rotate }
    requires alike { G.IsAlwaysCallable alike }
{
    let dim = reader.u64()?;
    let mut matrix_room = [0.0; 32];
    let matrix = reader.list(&mut matrix_room)?;
    let mut input_room = [0.0; 32];
    let input = reader.list(&mut input_room)?;
    let call = |out: &mut [f64]| rotate(dim, matrix, input, out);
    answer::output(reader, [7.25; 32], call, alike)
}

fn have_same_bits(a: &[f64], b: &[f64]) -> bool {
    a.iter()
        .map(|x| patterns::f64_bits(*x))
        .eq(b.iter().map(|x| patterns::f64_bits(*x)))
}

// A zero's sign is not compared.
pub fn apply(reader: &mut Reader<'_>) -> Result<bool, Malformed> {
    replay(reader, rotation::apply, |a, b| a == b)
}

pub fn apply_inverse(reader: &mut Reader<'_>) -> Result<bool, Malformed> {
    replay(reader, rotation::apply_inverse, have_same_bits)
}
