// The codebooks in the work of a refinement: copied in, from part to part and out, and the start of a restart.
// Every function here is public only for the crates above, which lend work of the right lengths.
#![tactic(auto)]

ghost use Rattle.std.specs.Prelude.{◌≡◌, ◌⊎◌, ◌+◌, ◌-◌, ◌*◌, ◌/◌, ◌%◌, ◌≤◌, ◌<◌, length, get_or, take, drop};
ghost use Rattle.std.specs.Float.{nan, binary32};
ghost use Rattle.slices.specs.Lists.{tabulate, patched};
ghost use Rattle.narrow.specs.Pack.{narrow_to};
ghost use Rattle.rotation.specs.Apply.{applied_at};

// The values are copied into the work, from `to` on.
#[tactic(auto, using(slices::proofs::ListLaw::patched_more), unfolding(slices::specs::Lists::patched))]
pub fn copy_in(values: &[f64], work: &mut [f64], to: usize)
    requires { to + length values.now ≤ length work.old }
    ensures { work.new
        ≡ patched work.old to (length values.now) (λ i. get_or values.now i nan) }
{
    for (i, value) in values.iter().enumerate() {
        work[to + i] = *value;
    }
}

// `count` values are copied from one part of the work to another.
#[tactic(auto, using(slices::proofs::ListLaw::patched_more), unfolding(slices::specs::Lists::patched))]
pub fn copy_part(work: &mut [f64], from: usize, to: usize, count: usize)
    requires { (from + count ≤ length work.old) × (to + count ≤ length work.old)
        × ((to + count ≤ from) ⊎ (from + count ≤ to)) }
    ensures { work.new
        ≡ patched work.old to count (λ i. get_or work.old (from + i) nan) }
{
    for i in 0..count {
        work[to + i] = work[from + i];
    }
}

// The codewords become the values of the work from `from` on, rounded to binary32.
#[tactic(auto, using(slices::proofs::ListLaw::patched_more), unfolding(slices::specs::Lists::patched))]
pub fn narrow_out(work: &[f64], from: usize, codewords: &mut [f32])
    requires { from + length codewords.old ≤ length work.now }
    ensures { codewords.new
        ≡ tabulate (length codewords.old)
        (λ i. narrow_to binary32 (get_or work.now (from + i) nan)) }
{
    // Kept: an index beside iter_mut, since after a zip with it a proof knows nothing of what was written.
    for (i, codeword) in codewords.iter_mut().enumerate() {
        *codeword = narrow::f64_to_f32(work[from + i]);
    }
}

// The first values of the work become the n codewords, each rotated by the matrix.
#[tactic(auto, using(crate::proofs::PartLaw::word_inside))]
fn rotate_words(matrix: &[f64], initial: &[f64], work: &mut [f64], n: usize, k: usize)
    requires { (length matrix.now ≡ k * k) × (length initial.now ≡ n * k) × (n * k ≤ length work.old) }
    ensures { work.new
        ≡ patched work.old 0 (n * k)
        (λ i. applied_at k matrix.now (take k (drop (i / k * k) initial.now)) (i % k)) }
{
    // Kept: no chunks_exact, which k = 0 does not allow; to ask for more here would ask more of the callers.
    for c in 0..n {
        let at = c * k;
        let end = at + k;
        rotation::rotate(matrix, &initial[at..end], &mut work[at..end]);
    }
}

// Where a later restart starts: the initial codewords, rotated by
// the restart's own matrix, the first lent being that of restart 1.
#[tactic(auto, using(crate::proofs::PartLaw::word_inside, crate::proofs::PartLaw::word_length))]
pub fn start_restart(
    initial: &[f64],
    matrices: &[f64],
    work: &mut [f64],
    n: usize,
    k: usize,
    restart: usize,
)
    requires { (0 < restart) × (restart * (k * k) ≤ length matrices.now) × (length initial.now ≡ n * k)
        × (n * k ≤ length work.old) }
    ensures { work.new
        ≡ patched work.old 0 (n * k)
        (λ i. applied_at k (take (k * k) (drop ((restart - 1) * (k * k)) matrices.now))
        (take k (drop (i / k * k) initial.now)) (i % k)) }
{
    let size = k * k;
    let from = (restart - 1) * size;
    let to = from + size;
    rotate_words(&matrices[from..to], initial, work, n, k);
}
