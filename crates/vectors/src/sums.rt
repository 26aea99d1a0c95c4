// Errors and rotations of small vectors, all of them exact but the last of each.
use error::Refusal;
use std::io;

pub fn errors(rt: &impl Print) -> io::Result<()> {
    let cases: [(&str, &[f32], &[f32]); 5] = [
        ("1, 2 and 2, 4", &[1.0, 2.0], &[2.0, 4.0]),
        ("3, 4 and 0, 0", &[3.0, 4.0], &[0.0, 0.0]),
        (
            "1, 1, 1, 1 and 1, 1, 1, 1",
            &[1.0, 1.0, 1.0, 1.0],
            &[1.0, 1.0, 1.0, 1.0],
        ),
        ("0.5 and -0.25", &[0.5], &[-0.25]),
        (
            "0.1, 0.2, 0.3 and 0, 0, 0",
            &[0.1, 0.2, 0.3],
            &[0.0, 0.0, 0.0],
        ),
    ];
    for (name, left, right) in cases {
        match metrics::mse(left, right) {
            Ok(x) => println!(rt; "mse of {name}: {:016x}", patterns::f64_bits(x))?,
            Err(_) => println!(rt; "mse of {name}: 0")?,
        }
    }
    Ok(())
}

fn rotated<F: FnOnce(&mut [f64]) -> Result<(), Refusal>>(
    rt: &impl Print,
    name: &str,
    rotate: F,
) -> io::Result<()>
    requires { F.IsAlwaysCallable rotate }
{
    let mut out = [0.0; 2];
    match rotate(&mut out) {
        Ok(()) => {
            for x in out {
                println!(rt; "{name}, there and back: {:016x}", patterns::f64_bits(x))?;
            }
            Ok(())
        }
        Err(_) => println!(rt; "{name}, there and back: 0"),
    }
}

// Matrices of d = 2 and inputs.
const ROTATIONS: [(&str, [f64; 4], [f64; 2]); 3] = [
    ("1 2; 3 4 and 1, 10", [1.0, 2.0, 3.0, 4.0], [1.0, 10.0]),
    ("0 -1; 1 0 and 3, 4", [0.0, -1.0, 1.0, 0.0], [3.0, 4.0]),
    (
        "0.1 0.2; 0.3 0.7 and 0.1, 0.3",
        [0.1, 0.2, 0.3, 0.7],
        [0.1, 0.3],
    ),
];

pub fn rotations(rt: &impl Print) -> io::Result<()> {
    for (name, matrix, input) in ROTATIONS {
        rotated(rt, name, |out| rotation::apply(2, &matrix, &input, out))?;
        rotated(
            rt,
            name,
            |out| rotation::apply_inverse(2, &matrix, &input, out),
        )?;
    }
    Ok(())
}
