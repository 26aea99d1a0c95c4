// A rotation: a d × d matrix, stored row by row, applied to a vector, and its transpose, which undoes it.
// specs/Apply.antt says what comes out: sums from +0.0, their terms in order, each operation rounded.
#![tactic(auto)]

mod product;

ghost use Rattle.std.specs.Prelude.{◌≡◌, ◌+◌, ◌*◌, ◌<◌, ◌≤◌, length};
ghost use Rattle.error.specs.Numbers.{outcome, if_completed};
ghost use Rattle.slices.specs.Lists.{filled};
ghost use Rattle.rotation.specs.Apply.{applied, applied_inverse, shape};
ghost use Rattle.rotation.specs.Rows.{dim, row_total, row_sums, column_total, column_sums};

use error::{Refusal, Slice};
use product::{Product, Rows};
use profile::FibQuantProfile;

// The matrix times the input.
pub fn apply(dim: u64, matrix: &[f64], input: &[f64], output: &mut [f64]) -> Result<(), Refusal>
    ensures { let o =
        shape dim (length matrix.now) (length input.now) (length output.old) in
        (outcome result ≡ o)
        × (output.new
        ≡ if_completed o (applied dim matrix.now input.now) output.old) }
{
    check_shape(dim, matrix.len(), input.len(), output.len())?;
    rotate(matrix, input, output);
    Ok(())
}

// The transposed matrix times the input.
// Kept: beside `apply`: both are a check and a call, and one function of them would switch on which is meant.
pub fn apply_inverse(
    dim: u64,
    matrix: &[f64],
    input: &[f64],
    output: &mut [f64],
) -> Result<(), Refusal>
    ensures { let o =
        shape dim (length matrix.now) (length input.now) (length output.old) in
        (outcome result ≡ o)
        × (output.new
        ≡ if_completed o (applied_inverse dim matrix.now input.now) output.old) }
{
    check_shape(dim, matrix.len(), input.len(), output.len())?;
    rotate_back(matrix, input, output);
    Ok(())
}

// The refusals of both, from the dimension and the lengths.
fn check_shape(dim: u64, matrix: usize, input: usize, output: usize) -> Result<(), Refusal>
    ensures { outcome result ≡ shape dim matrix input output }
{
    if dim == 0 {
        return Err(Refusal::ZeroDimension);
    }
    // What this refuses the next test would refuse too; it comes first so that the square can't overflow.
    if FibQuantProfile::MAX_AMBIENT_DIM < dim {
        return Err(Refusal::ResourceLimitExceeded);
    }
    if FibQuantProfile::MAX_ROTATION_MATRIX_VALUES < dim * dim {
        return Err(Refusal::ResourceLimitExceeded);
    }
    if matrix as u64 != dim * dim {
        return Err(Refusal::SliceLength(Slice::Matrix));
    }
    if input as u64 != dim {
        return Err(Refusal::SliceLength(Slice::Input));
    }
    if output as u64 != dim {
        return Err(Refusal::SliceLength(Slice::Output));
    }
    Ok(())
}

// `apply` for lengths already checked. Public only for the crates above.
// Eight rows at a time, since their sums do not wait for each
// other; the rows left over, at most seven, come one at a time.
// Kept: that two slices have one length is asked here and wherever two are read side by side,
// as std's copy_from_slice asks it, since a struct of both would hold this fact and nothing else.
#[tactic(auto, unfolding(slices::specs::Lists::tabulate))]
pub fn rotate(matrix: &[f64], input: &[f64], output: &mut [f64])
    requires matrix_len { length matrix.now ≡ length input.now * length input.now }
    requires output_len { length output.old ≡ length input.now }
    ensures { output.new
        ≡ applied (length input.now) matrix.now input.now }
{
    let product = Product { matrix, input };
    let passed = product.rotate_rows::<8>(output, 0);
    product.rotate_rows::<1>(output, passed);
}

// `apply_inverse` for lengths already checked. Public only for the crates above.
// Row by row into the output: the memory is read in order, and each output still gets its terms in the order of the rows.
// Four rows at a time, since the output is then loaded and stored
// a quarter as often; the rows left over come one at a time.
pub fn rotate_back(matrix: &[f64], input: &[f64], output: &mut [f64])
    requires matrix_len { length matrix.now ≡ length input.now * length input.now }
    requires output_len { length output.old ≡ length input.now }
    ensures { output.new
        ≡ applied_inverse (length input.now) matrix.now input.now }
{
    output.fill(0.0);
    let product = Product { matrix, input };
    let passed = product.rotate_back_rows::<4>(output, 0);
    product.rotate_back_rows::<1>(output, passed);
}

impl Product<'_> {
    // The rows from `first` on, N at a time, where those before it stand already;
    // answers where the rows begin that are left over, fewer than N.
    fn rotate_rows<const N: usize>(self, output: &mut [f64], first: usize) -> usize
        requires some { 0 < N }
        requires output_len { length output.old ≡ dim self }
        requires first_in_bounds { first ≤ dim self }
        requires output_value { output.old ≡ filled first (row_total self) output.old }
        ensures upper_bound { result ≤ dim self.entry }
        ensures left_over { dim self.entry < result + N }
        ensures output_after { output.new ≡ filled result (row_total self.entry) output.old }
    {
        let blocks = (self.input.len() - first) / N;
        for block in 0..blocks {
            let row = first + block * N;
            let rows: Rows<N> = Rows { product: self, row };
            let sums = rows.dot();
            output[row..row + N].copy_from_slice(&sums);
        }
        first + blocks * N
    }

    // The rows from `first` on, N at a time, where the outputs are the sums over those before it;
    // answers where the rows begin that are left over, fewer than N.
    fn rotate_back_rows<const N: usize>(self, output: &mut [f64], first: usize) -> usize
        requires some { 0 < N }
        requires first_in_bounds { first ≤ dim self }
        requires output_value { output.old ≡ column_sums self first }
        ensures upper_bound { result ≤ dim self.entry }
        ensures left_over { dim self.entry < result + N }
        ensures output_after { output.new ≡ column_sums self.entry result }
    {
        let blocks = (self.input.len() - first) / N;
        for block in 0..blocks {
            let rows: Rows<N> = Rows {
                product: self,
                row: first + block * N,
            };
            rows.add_rows(output);
        }
        first + blocks * N
    }
}

impl<const N: usize> Rows<'_, N> {
    // The rows' sums, which do not wait for each other.
    fn dot(self) -> [f64; N]
        ensures { let p = self.entry.product in result ≡ row_sums N p self.entry.row (dim p) }
    {
        let mut sums = [0.0; N];
        for column in 0..self.product.input.len() {
            self.add_products(&mut sums, column);
        }
        sums
    }

    // Adds to each row's sum its product at this column.
    fn add_products(self, sums: &mut [f64; N], column: usize)
        requires column_in_bounds { column < dim self.product }
        requires sums_value { sums.old ≡ row_sums N self.product self.row column }
        ensures { sums.new ≡ row_sums N self.entry.product self.entry.row (column + 1) }
    {
        let product = self.product;
        let d = product.input.len();
        for i in 0..N {
            sums[i] = sums[i] + product.matrix[(self.row + i) * d + column] * product.input[column];
        }
    }

    // Adds to each output, the sum over the rows before these, its terms of these.
    fn add_rows(self, output: &mut [f64])
        requires { output.old ≡ column_sums self.product self.row }
        ensures { output.new ≡ column_sums self.entry.product (self.entry.row + N) }
    {
        for column in 0..output.len() {
            output[column] = self.add_terms(column, output[column]);
        }
    }

    // The sum of a column over the rows before these, with its terms of these added in order.
    #[tactic(auto, unfolding(ieee::specs::Sum::sum_to))]
    fn add_terms(self, column: usize, mut sum: f64) -> f64
        requires column_in_bounds { column < dim self.product }
        requires sum_value { sum ≡ column_total self.product self.row column }
        ensures { result ≡ column_total self.entry.product (self.entry.row + N) column }
    {
        let product = self.product;
        for i in self.row..self.row + N {
            sum = sum + product.matrix[i * product.input.len() + column] * product.input[i];
        }
        sum
    }
}
