// Conversions between IEEE 754's binary16, binary32 and binary64, rounded to nearest, ties to even.
// Rattle's `as` from f64 to f32 is defined only where nothing is lost, so narrowing is worked out on
// bits. There is no type for binary16: a value of it is its bit pattern, a u16.
// Kept: a conversion beside std's nearest_f64_to_f32_with_nan, since it and binary16's are one function with one proof.
#![tactic(auto)]

ghost use Rattle.std.specs.Prelude.{◌≡◌, ◌+◌, ◌-◌, ◌*◌, ◌^◌, ◌<◌, ◌≤◌, min, false, if◌then◌else◌, from_bits, nat_le};
ghost use Rattle.std.specs.Float.{binary32, binary64};
ghost use Rattle.std.specs.Float.Ieee.{odd};
ghost use Rattle.std.specs.Float.Ieee.Nearest.{closest};
ghost use Rattle.narrow.specs.Format.{inf_of, top_of, unpacked};
ghost use Rattle.narrow.specs.Pack.{mag_of, packed, narrow_to, Narrower, Wide};

// ---- a binary64 pattern at a narrower format

// The weight of a binary64 pattern's sign, and of its exponent's field: that of the leading digit.
const SIGN: u64 = 0x8000_0000_0000_0000;

const LEAD: u64 = 0x10_0000_0000_0000;

// A format of so few digits that one cut of binary64's 53 gives the result.
#[derive(Clone, Copy)]
struct Binary {
    digits: u64,
    emax: u64,
    ghost narrower: { Narrower digits emax },
}

const BINARY16: Binary = Binary {
    digits: 11,
    emax: 15,
};

const BINARY32: Binary = Binary {
    digits: 24,
    emax: 127,
};

// a without its last k binary digits, rounded to the nearest whole number, a tie to the even one.
fn nearest(a: u64, k: u64) -> u64
    requires { (k < 62) × (a < 0x4000_0000_0000_0000) }
    ensures value { result ≡ closest a (2 ^ k) }
    ensures bound { result ≤ a + 1 }
{
    let u = 1 << k;
    let q = a / u;
    let twice = a % u * 2;
    // Without a branch, since which way a value goes cannot be foretold.
    let up = (u < twice) | ((twice == u) & (q % 2 == 1));
    q + up as u64
}

impl Binary {
    // The weight of the exponent's field.
    fn lead(self) -> u64
        ensures { result ≡ 2 ^ (self.digits - 1) }
    {
        1 << (self.digits - 1)
    }

    fn infinity(self) -> u64
        ensures { result ≡ inf_of self.digits self.emax }
    {
        (2 * self.emax + 1) * self.lead()
    }

    // The pattern with k in the exponent's field and q added, and no more than infinity's. A q of all
    // the digits carries its leading one into the field.
    fn assemble(self, k: u64, q: u64) -> u64
        requires { (k < 4096) × (q < 0x4000_0000_0000_0000) }
        ensures { result ≡ min (k * 2 ^ (self.digits - 1) + q) (inf_of self.digits self.emax) }
    {
        let m = k * self.lead() + q;
        m.min(self.infinity())
    }

    // The pattern, without a sign, of sig * 2 ^ e of binary64's smallest values. Either the format keeps
    // all its digits, and the others of the 53 are cut, or it keeps what lies above its own smallest value.
    fn magnitude(self, sig: u64, e: u64) -> u64
        requires { Wide sig e }
        ensures value { result ≡ mag_of self.digits self.emax (sig * 2 ^ e) (2 ^ 1074) }
        ensures bound { result ≤ inf_of self.digits self.emax }
    {
        let least = 1076 - self.emax - self.digits;
        let k = e.saturating_sub(least - (53 - self.digits));
        let cut = least + k - e;
        if 54 < cut {
            return 0;
        }
        self.assemble(k, nearest(sig, cut))
    }

    // What the sign of the binary64 pattern b adds.
    fn sign_of(self, b: u64) -> u64
        ensures { result ≡ (if nat_le SIGN b then top_of self.digits self.emax else 0) }
    {
        if SIGN <= b {
            return self.lead() * (2 * self.emax + 2);
        }
        0
    }

    // The binary64 pattern b at this format, rounded once.
    fn narrowed(self, b: u64) -> u64
        ensures { result ≡ packed self.digits self.emax (from_bits binary64 b) }
    {
        let t = b % LEAD;
        let s = self.sign_of(b);
        match b % SIGN / LEAD {
            0 => s + self.magnitude(t, 0),
            2047 if t == 0 => s + self.infinity(),
            2047 => self.infinity() + self.lead() / 2,
            x => s + self.magnitude(LEAD + t, x - 1),
        }
    }

    // The pattern of x at this format, rounded once. Above those with a sign there is none.
    fn pattern(self, x: f64) -> u64
        ensures value { result ≡ packed self.digits self.emax x }
        ensures bound { result < 2 * top_of self.digits self.emax }
    {
        self.narrowed(std::num::f64_to_bits_with_nan(x))
    }
}

// ---- binary16 patterns as values

// q * 2 ^ k of binary16's smallest values, 2 ^ -24: a product with a power of two, which is exact.
fn scaled(q: u32, k: u32) -> f32
    requires { (q < 2048) × (k < 30) }
    ensures { result ≡ odd 11 false q k 24 }
{
    q as f32 * f32::from_bits((k + 103) * 0x80_0000)
}

// The value of a pattern without its sign.
fn unsigned_f16(m: u32) -> f32
    requires { m < 0x8000 }
    ensures { result ≡ unpacked 11 15 m }
{
    match m {
        0..1024 => scaled(m, 0),
        1024..0x7C00 => scaled(1024 + m % 1024, m / 1024 - 1),
        0x7C00 => f32::INFINITY,
        _ => f32::NAN,
    }
}

// ---- the conversions

// x rounded to binary32: Rust's `x as f32`, but for the sign and payload of a NaN.
pub fn f64_to_f32(x: f64) -> f32
    ensures { result ≡ narrow_to binary32 x }
{
    std::num::f32_from_bits_with_nan(f64_to_f32_bits(x))
}

// The binary32 pattern of x, rounded once. A NaN's is 0x7FC0_0000.
pub fn f64_to_f32_bits(x: f64) -> u32
    ensures { result ≡ packed 24 127 x }
{
    BINARY32.pattern(x) as u32
}

// The binary16 pattern of x, rounded once. A NaN's is 0x7E00.
pub fn f64_to_f16_bits(x: f64) -> u16
    ensures { result ≡ packed 11 15 x }
{
    BINARY16.pattern(x) as u16
}

// The value of a binary16 pattern, which binary32 holds exactly.
pub fn f16_bits_to_f32(b: u16) -> f32
    ensures { result ≡ unpacked 11 15 b }
{
    if b < 0x8000 {
        return unsigned_f16(b as u32);
    }
    -unsigned_f16((b - 0x8000) as u32)
}

// The value of a binary32 pattern, which binary64 holds exactly.
pub fn f32_bits_to_f64(b: u32) -> f64
    ensures { result ≡ unpacked 24 127 b }
{
    f32_to_f64(std::num::f32_from_bits_with_nan(b))
}

// x at binary64, which holds every value of binary32. One type of values serves both formats.
pub fn f32_to_f64(x: f32) -> f64
    ensures { result ≡ x }
{
    std::num::f32_to_f64_with_nan(x)
}
