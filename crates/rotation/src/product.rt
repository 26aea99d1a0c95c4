// The matrix and the vector that every step of a rotation reads. A file of its own, since specs/Rows.antt is over it.
ghost use Rattle.std.specs.Prelude.{◌≡◌, ◌+◌, ◌*◌, ◌≤◌, length};

// A square matrix, stored row by row, and the vector that it or its transpose is applied to.
#[derive(Clone, Copy)]
pub struct Product<'a> {
    pub matrix: &'a [f64],
    pub input: &'a [f64],
    ghost square: { length matrix.now ≡ length input.now * length input.now },
}

// N rows of the matrix, from `row` on.
#[derive(Clone, Copy)]
pub struct Rows<'a, const N: usize> {
    pub product: Product<'a>,
    pub row: usize,
    ghost within: { row + N ≤ length product.input.now },
}
