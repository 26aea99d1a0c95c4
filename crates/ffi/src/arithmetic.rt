// Conversions and the square root for the host. They refuse nothing.
ghost use Rattle.std.specs.Prelude.{◌≡◌};
ghost use Rattle.std.specs.Float.{binary32, binary64};
ghost use Rattle.std.specs.Float.Ieee.{to_bits};
ghost use Rattle.error.specs.Numbers.{completed};
ghost use Rattle.narrow.specs.Format.{unpacked};
ghost use Rattle.narrow.specs.Pack.{packed, narrow_to};
ghost use Rattle.root.specs.Sqrt.{sqrt_of};
ghost use Rattle.ffi_crossing.specs.Crossing.{found, crossed, one_whole, one_real};

use ffi_crossing::put_answer;

// x at binary32, its bits in whole[0].
#[unsafe(no_mangle)]
pub extern "C" fn fib_f64_to_f32(x: f64, whole: &mut [u64; 4], real: &mut [f64; 2]) -> u32
    ensures { found result whole.new real.new
        ≡ crossed one_whole (completed (to_bits binary32 (narrow_to binary32 x))) }
{
    let bits = std::num::f32_to_bits_with_nan(narrow::f64_to_f32(x));
    put_answer(Ok(bits), whole, real)
}

// x at binary16, rounded once, its bits in whole[0].
#[unsafe(no_mangle)]
pub extern "C" fn fib_f64_to_f16(x: f64, whole: &mut [u64; 4], real: &mut [f64; 2]) -> u32
    ensures { found result whole.new real.new ≡ crossed one_whole (completed (packed 11 15 x)) }
{
    put_answer(Ok(narrow::f64_to_f16_bits(x)), whole, real)
}

// The value of a binary16 pattern, its binary32 bits in whole[0].
#[unsafe(no_mangle)]
pub extern "C" fn fib_f16_to_f32(bits: u16, whole: &mut [u64; 4], real: &mut [f64; 2]) -> u32
    ensures { found result whole.new real.new
        ≡ crossed one_whole (completed (to_bits binary32 (unpacked 11 15 bits))) }
{
    let wide = std::num::f32_to_bits_with_nan(narrow::f16_bits_to_f32(bits));
    put_answer(Ok(wide), whole, real)
}

// The root in real[0].
#[unsafe(no_mangle)]
pub extern "C" fn fib_sqrt(x: f64, whole: &mut [u64; 4], real: &mut [f64; 2]) -> u32
    ensures { found result whole.new real.new
        ≡ crossed one_real (completed (sqrt_of binary64 x)) }
{
    put_answer(Ok(root::sqrt(x)), whole, real)
}
