// Rotations and the mean squared error for the host.
ghost use Rattle.std.specs.Prelude.{◌≡◌, length};
ghost use Rattle.error.specs.Numbers.{if_completed};
ghost use Rattle.rotation.specs.Apply.{applied, applied_inverse, shape};
ghost use Rattle.metrics.specs.Mse.{mse_outcome};
ghost use Rattle.ffi_crossing.specs.Crossing.{found, crossed, none, one_real};

use ffi_crossing::put_answer;

// The matrix times the input.
#[unsafe(no_mangle)]
pub extern "C" fn fib_apply(
    dim: u64,
    matrix: &[f64],
    input: &[f64],
    output: &mut [f64],
    whole: &mut [u64; 4],
    real: &mut [f64; 2],
) -> u32
    ensures { let o =
        shape dim (length matrix.now) (length input.now) (length output.old) in
        (found result whole.new real.new ≡ crossed none o)
        × (output.new
        ≡ if_completed o (applied dim matrix.now input.now) output.old) }
{
    let answer = rotation::apply(dim, matrix, input, output);
    put_answer(answer, whole, real)
}

// The transposed matrix times the input.
#[unsafe(no_mangle)]
pub extern "C" fn fib_apply_inverse(
    dim: u64,
    matrix: &[f64],
    input: &[f64],
    output: &mut [f64],
    whole: &mut [u64; 4],
    real: &mut [f64; 2],
) -> u32
    ensures { let o =
        shape dim (length matrix.now) (length input.now) (length output.old) in
        (found result whole.new real.new ≡ crossed none o)
        × (output.new
        ≡ if_completed o (applied_inverse dim matrix.now input.now) output.old) }
{
    let answer = rotation::apply_inverse(dim, matrix, input, output);
    put_answer(answer, whole, real)
}

// The error in real[0].
#[unsafe(no_mangle)]
pub extern "C" fn fib_mse(
    left: &[f32],
    right: &[f32],
    whole: &mut [u64; 4],
    real: &mut [f64; 2],
) -> u32
    ensures { found result whole.new real.new
        ≡ crossed one_real (mse_outcome left.now right.now) }
{
    let answer = metrics::mse(left, right);
    put_answer(answer, whole, real)
}
