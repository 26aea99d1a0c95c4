// The square root of an f64, correctly rounded, worked out on whole numbers.
// Kept: a root beside std's f64::sqrt, since its proof is this repository's evidence that the root is rounded correctly.
#![tactic(auto)]

ghost use Rattle.std.specs.Prelude.{◌≡◌, ◌<◌, ◌≤◌, ◌*◌, ◌^◌};
ghost use Rattle.std.specs.Float.{binary64};
ghost use Rattle.std.specs.Float.Ieee.{to_bits, of_bits};
ghost use Rattle.root.specs.Sqrt.{isqrt, root_of, sqrt_of};
ghost use Rattle.root.specs.Parts.{Normal};

// The weight of a binary64 pattern's exponent's field, that of the leading digit; and three patterns.
const LEAD: u64 = 0x10_0000_0000_0000;

const INFINITY: u64 = 0x7ff0_0000_0000_0000;

const NAN: u64 = 0x7ff8_0000_0000_0000;

const MINUS_ZERO: u64 = 0x8000_0000_0000_0000;

// The root of sig * 2 ^ 54, cut to a whole number. Each of the 54 steps takes
// two binary digits of the number down to the rest, and gives one of the root.
fn integer_root(sig: u64) -> u64
    requires { sig < 0x40_0000_0000_0000 }
    ensures { result ≡ isqrt (sig * 0x40_0000_0000_0000) }
{
    let mut digits = sig;
    let mut root = 0;
    let mut rest = 0;
    for _ in 0..54u64 {
        let next = rest * 4 + digits / LEAD;
        let least = root * 4 + 1;
        digits = digits % LEAD * 4;
        if least <= next {
            rest = next - least;
            root = root * 2 + 1;
        } else {
            rest = next;
            root = root * 2;
        }
    }
    root
}

// The 53 digits of a value, and how often they are doubled.
#[derive(Clone, Copy)]
struct Significand {
    sig: u64,
    h: u64,
    ghost digits: { (2 ^ 52 ≤ sig) × (sig < 2 ^ 53) },
    ghost reach: { h < 2098 },
}

impl Significand {
    // The digits t of a subnormal value, with the leading one moved up to the place of 2 ^ 52.
    fn of_subnormal(t: u64) -> Significand
        requires { (0 < t) × (t < LEAD) }
        ensures { Normal t result.sig result.h }
    {
        let h = t.ilog2() as u64;
        Significand {
            sig: t << (52 - h),
            h,
        }
    }

    // The pattern of the root of sig * 2 ^ h / 2 ^ 1126. An odd h gives sig one place more, so that
    // what is left of it is even. The root has one digit more than an f64 keeps, and the last one
    // rounds it. There is no tie: an odd root of 54 digits is never exact.
    fn root_pattern(self) -> u64
        ensures { result ≡ to_bits binary64 (root_of binary64 (self.sig * 2 ^ self.h) (2 ^ 1126)) }
    {
        let r = integer_root(self.sig * (1 + self.h % 2));
        (self.h / 2 + 485) * LEAD + (r / 2 + r % 2)
    }
}

// The pattern of the root of the f64 whose pattern is b, which is finite and above zero.
fn positive_root(b: u64) -> u64
    requires { (0 < b) × (b < INFINITY) }
    ensures { result ≡ to_bits binary64 (sqrt_of binary64 (of_bits binary64 b)) }
{
    let t = b % LEAD;
    match b / LEAD {
        0 => Significand::of_subnormal(t).root_pattern(),
        x => Significand {
            sig: LEAD + t,
            h: x + 51,
        }
        .root_pattern(),
    }
}

// The root of x, correctly rounded. A zero keeps its sign, and a number below zero gives a NaN.
pub fn sqrt(x: f64) -> f64
    ensures { result ≡ sqrt_of binary64 x }
{
    let b = std::num::f64_to_bits_with_nan(x);
    match b {
        0 | MINUS_ZERO | INFINITY | NAN => x,
        1..INFINITY => std::num::f64_from_bits_with_nan(positive_root(b)),
        _ => f64::NAN,
    }
}
