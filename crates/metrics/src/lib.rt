// The mean squared error of two vectors. specs/Mse.antt says what comes out.
#![tactic(auto)]

ghost use Rattle.std.specs.Prelude.{◌≡◌, length};
ghost use Rattle.error.specs.Numbers.{outcome};
ghost use Rattle.metrics.specs.Mse.{squared_error, mse_outcome};

use error::{Refusal, Slice};

// The mean squared error of two vectors of the same length. A NaN among the values gives a NaN.
pub fn mse(left: &[f32], right: &[f32]) -> Result<f64, Refusal>
    ensures { outcome result ≡ mse_outcome left.now right.now }
{
    let n = left.len();
    if right.len() != n {
        return Err(Refusal::SliceLength(Slice::Right));
    }
    if n == 0 {
        return Err(Refusal::ZeroDimension);
    }
    Ok(squared_error(left, right) / ieee::from_u64(n as u64))
}

// The squared differences, added from +0.0 in order.
fn squared_error(left: &[f32], right: &[f32]) -> f64
    requires { length right.now ≡ length left.now }
    ensures { result ≡ squared_error left.now right.now (length left.now) }
{
    let mut sum = 0.0;
    for (x, y) in left.iter().zip(right) {
        let difference = std::num::f32_to_f64_with_nan(*x) - std::num::f32_to_f64_with_nan(*y);
        sum = sum + difference * difference;
    }
    sum
}
