// Square roots.
use std::io;

// Binary64 values, by name and bits.
const ROOTS: [(&str, u64); 18] = [
    ("2", 0x4000_0000_0000_0000),
    ("3", 0x4008_0000_0000_0000),
    ("0.5", 0x3FE0_0000_0000_0000),
    ("0.1", 0x3FB9_9999_9999_999A),
    ("4", 0x4010_0000_0000_0000),
    ("1 + 2^-52", 0x3FF0_0000_0000_0001),
    ("1 - 2^-53", 0x3FEF_FFFF_FFFF_FFFF),
    ("1e300", 0x7E37_E43C_8800_759C),
    // The ends of the normal and of the subnormal values.
    ("2^-1074", 0x0000_0000_0000_0001),
    ("2^-1022 - 2^-1074", 0x000F_FFFF_FFFF_FFFF),
    ("2^-1022", 0x0010_0000_0000_0000),
    ("the largest binary64", 0x7FEF_FFFF_FFFF_FFFF),
    // Special values.
    ("0", 0x0000_0000_0000_0000),
    ("-0", 0x8000_0000_0000_0000),
    ("infinity", 0x7FF0_0000_0000_0000),
    ("-1", 0xBFF0_0000_0000_0000),
    ("-infinity", 0xFFF0_0000_0000_0000),
    ("a NaN", 0x7FF8_0000_0000_0000),
];

pub fn roots(rt: &impl Print) -> io::Result<()> {
    for (name, bits) in ROOTS {
        let root = patterns::f64_bits(root::sqrt(patterns::f64_of(bits)));
        println!(rt; "root of {name}: {root:016x}")?;
    }
    Ok(())
}
