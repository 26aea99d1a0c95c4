// Default numbers of samples, and profiles by their shape.
use crate::number;
use profile::FibQuantProfile;
use std::io;

// N, by name and value.
const CODEBOOK_SIZES: [(&str, u64); 5] = [
    ("8", 8),
    ("9", 9),
    ("333333", 333_333),
    ("333334", 333_334),
    ("2^60", 1 << 60),
];

pub fn default_samples(rt: &impl Print) -> io::Result<()> {
    for (name, codebook_size) in CODEBOOK_SIZES {
        match profile::default_training_samples(codebook_size) {
            Ok(n) => println!(rt; "samples of N = {name}: {n}")?,
            Err(refusal) => {
                let number = number(refusal);
                println!(rt; "samples of N = {name}, refused by: {number}")?;
            }
        }
    }
    Ok(())
}

// d, k, N by name and value, and log2 of N.
const SHAPES: [(u64, u64, &str, u64, f64); 13] = [
    // Of the document.
    (4096, 16, "256", 256, 8.0),
    (4097, 17, "256", 256, 8.0),
    (16, 1, "4", 4, 2.0),
    // Refused.
    (0, 1, "4", 4, 2.0),
    (16, 0, "4", 4, 2.0),
    (16, 16, "4", 4, 2.0),
    (16, 3, "4", 4, 2.0),
    // At the limits, and past them.
    (16_385, 5, "4", 4, 2.0),
    (514, 257, "4", 4, 2.0),
    (16, 4, "1", 1, 0.0),
    (16, 4, "2^20", 1 << 20, 20.0),
    (16, 4, "2^20 + 1", (1 << 20) + 1, 20.0),
    (512, 128, "2^20", 1 << 20, 20.0),
];

pub fn profiles(rt: &impl Print) -> io::Result<()> {
    for (d, k, name, n, log2) in SHAPES {
        let refused = match FibQuantProfile::paper_default(d, k, n, 1, log2) {
            Ok(_) => 0,
            Err(refusal) => number(refusal),
        };
        println!(rt; "profile d = {d}, k = {k}, N = {name}: {refused}")?;
    }
    Ok(())
}
