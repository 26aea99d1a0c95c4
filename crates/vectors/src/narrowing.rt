// Conversions between the formats. An input is given by its bits, a result is shown by its.
use crate::number;
use std::io;

// Binary64 values, by name and bits.
const TO_BINARY32: [(&str, u64); 29] = [
    // Near 1, and halfway between two.
    ("1", 0x3FF0_0000_0000_0000),
    ("0.1", 0x3FB9_9999_9999_999A),
    ("1 + 2^-24", 0x3FF0_0000_1000_0000),
    ("1 + 2^-24 + 2^-52", 0x3FF0_0000_1000_0001),
    ("1 + 3 * 2^-24", 0x3FF0_0000_3000_0000),
    ("1 + 3 * 2^-24 - 2^-52", 0x3FF0_0000_2FFF_FFFF),
    ("1 - 2^-25", 0x3FEF_FFFF_F000_0000),
    ("-(1 + 2^-24)", 0xBFF0_0000_1000_0000),
    ("-(1 + 3 * 2^-24)", 0xBFF0_0000_3000_0000),
    ("2^24 + 1", 0x4170_0000_1000_0000),
    ("2^24 + 3", 0x4170_0000_3000_0000),
    // Overflow.
    ("2^128 - 2^104", 0x47EF_FFFF_E000_0000),
    ("2^128 - 2^103 - 2^75", 0x47EF_FFFF_EFFF_FFFF),
    ("2^128 - 2^103", 0x47EF_FFFF_F000_0000),
    ("-(2^128 - 2^103)", 0xC7EF_FFFF_F000_0000),
    ("the largest binary64", 0x7FEF_FFFF_FFFF_FFFF),
    // Underflow.
    ("2^-126", 0x3810_0000_0000_0000),
    ("2^-126 - 2^-150", 0x380F_FFFF_E000_0000),
    ("3 * 2^-150", 0x36A8_0000_0000_0000),
    ("2^-149", 0x36A0_0000_0000_0000),
    ("2^-150", 0x3690_0000_0000_0000),
    ("2^-150 + 2^-202", 0x3690_0000_0000_0001),
    ("-2^-150", 0xB690_0000_0000_0000),
    ("2^-1074", 0x0000_0000_0000_0001),
    // Special values.
    ("0", 0x0000_0000_0000_0000),
    ("-0", 0x8000_0000_0000_0000),
    ("infinity", 0x7FF0_0000_0000_0000),
    ("-infinity", 0xFFF0_0000_0000_0000),
    ("a NaN", 0x7FF8_0000_0000_0000),
];

pub fn to_binary32(rt: &impl Print) -> io::Result<()> {
    for (name, bits) in TO_BINARY32 {
        let narrowed = patterns::f32_bits(narrow::f64_to_f32(patterns::f64_of(bits)));
        println!(rt; "binary32 of {name}: {narrowed:08x}")?;
    }
    Ok(())
}

// Binary64 values, by name and bits.
const TO_BINARY16: [(&str, u64); 34] = [
    // Near 1, and halfway between two.
    ("1", 0x3FF0_0000_0000_0000),
    ("0.1", 0x3FB9_9999_9999_999A),
    ("1 + 2^-11", 0x3FF0_0200_0000_0000),
    ("1 + 2^-11 + 2^-23", 0x3FF0_0200_2000_0000),
    ("1 + 2^-11 + 2^-40", 0x3FF0_0200_0000_1000),
    ("1 + 2^-11 + 2^-52", 0x3FF0_0200_0000_0001),
    ("1 + 3 * 2^-11", 0x3FF0_0600_0000_0000),
    ("1 + 3 * 2^-11 - 2^-52", 0x3FF0_05FF_FFFF_FFFF),
    ("1 - 2^-12", 0x3FEF_FE00_0000_0000),
    ("-(1 + 2^-11)", 0xBFF0_0200_0000_0000),
    ("-(1 + 2^-11 + 2^-52)", 0xBFF0_0200_0000_0001),
    ("-(1 + 3 * 2^-11)", 0xBFF0_0600_0000_0000),
    // Overflow.
    ("65504", 0x40EF_FC00_0000_0000),
    ("65520 - 2^-37", 0x40EF_FDFF_FFFF_FFFF),
    ("65520", 0x40EF_FE00_0000_0000),
    ("-65520", 0xC0EF_FE00_0000_0000),
    ("the largest binary64", 0x7FEF_FFFF_FFFF_FFFF),
    // Underflow.
    ("2^-14", 0x3F10_0000_0000_0000),
    ("1023 * 2^-24", 0x3F0F_F800_0000_0000),
    ("2^-14 - 2^-25", 0x3F0F_FC00_0000_0000),
    ("2^-14 - 2^-25 - 2^-67", 0x3F0F_FBFF_FFFF_FFFF),
    ("3 * 2^-25", 0x3E78_0000_0000_0000),
    ("3 * 2^-25 - 2^-76", 0x3E77_FFFF_FFFF_FFFF),
    ("2^-24", 0x3E70_0000_0000_0000),
    ("2^-25", 0x3E60_0000_0000_0000),
    ("2^-25 + 2^-77", 0x3E60_0000_0000_0001),
    ("-2^-25", 0xBE60_0000_0000_0000),
    ("-(2^-25 + 2^-77)", 0xBE60_0000_0000_0001),
    ("2^-1074", 0x0000_0000_0000_0001),
    // Special values.
    ("0", 0x0000_0000_0000_0000),
    ("-0", 0x8000_0000_0000_0000),
    ("infinity", 0x7FF0_0000_0000_0000),
    ("-infinity", 0xFFF0_0000_0000_0000),
    ("a NaN", 0x7FF8_0000_0000_0000),
];

pub fn to_binary16(rt: &impl Print) -> io::Result<()> {
    for (name, bits) in TO_BINARY16 {
        let narrowed = narrow::f64_to_f16_bits(patterns::f64_of(bits));
        println!(rt; "binary16 of {name}: {narrowed:04x}")?;
    }
    Ok(())
}

// Binary16 values by their bits.
const FROM_BINARY16: [u16; 16] = [
    0x0000, 0x0001, 0x03FF, 0x0400, 0x3555, 0x3C00, 0x3C01, 0x7BFF, 0x7C00, 0x7C01, 0x7E00, 0x8000,
    0x8001, 0xC000, 0xFBFF, 0xFC00,
];

pub fn from_binary16(rt: &impl Print) -> io::Result<()> {
    for bits in FROM_BINARY16 {
        let widened = patterns::f32_bits(narrow::f16_bits_to_f32(bits));
        println!(rt; "value of {bits:#06x}: {widened:08x}")?;
    }
    Ok(())
}

// Binary64 values, by name and bits.
const NORMS: [(&str, u64); 9] = [
    ("1", 0x3FF0_0000_0000_0000),
    ("1 + 2^-11 + 2^-40", 0x3FF0_0200_0000_1000),
    ("65504", 0x40EF_FC00_0000_0000),
    ("65520 - 2^-37", 0x40EF_FDFF_FFFF_FFFF),
    ("2^-24", 0x3E70_0000_0000_0000),
    ("2^-25 + 2^-77", 0x3E60_0000_0000_0001),
    // Refused.
    ("65520", 0x40EF_FE00_0000_0000),
    ("2^-25", 0x3E60_0000_0000_0000),
    ("-1", 0xBFF0_0000_0000_0000),
];

pub fn norms(rt: &impl Print) -> io::Result<()> {
    for (name, bits) in NORMS {
        match norm::encode_norm(patterns::f64_of(bits)) {
            Ok(half) => println!(rt; "norm {name}: {half:04x}")?,
            Err(refusal) => {
                let number = number(refusal);
                println!(rt; "norm {name}, refused by: {number}")?;
            }
        }
    }
    Ok(())
}
