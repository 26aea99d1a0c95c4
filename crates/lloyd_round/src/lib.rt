// A round of refinement in lent work: every sample goes to its nearest
// codeword and is added up there, and the cells get their means.
// The public functions are public only for the crates above, which lend work of the right lengths.
#![tactic(auto)]

ghost use Rattle.std.specs.Prelude.{◌≡◌, List, ℕ, ◌+◌, ◌*◌, ◌≤◌, ◌<◌, ◌++◌, length, get_or, Float};
ghost use Rattle.std.specs.Float.{nan};
ghost use Rattle.lloyd_search.specs.Distance.{vector_of};
ghost use Rattle.lloyd_cells.specs.Repair.{Terms};
ghost use Rattle.lloyd_cells.specs.Work.{Kept};
ghost use Rattle.lloyd_round.specs.Round.{places_of, Holding, Roomy, AtFirst};
ghost use Rattle.lloyd_round.specs.Adding.{front, nearest_in, join_work, join_counts, join_numbers, Addable, Added};

use lloyd_cells::Places;
use lloyd_search::{Codewords, Found};

// Where the parts of a round's update begin in the float work.
pub fn places(n: usize, k: usize) -> Places
    requires { 3 * (n * k) + n < 0x1_0000_0000_0000 }
    ensures { result ≡ places_of n k }
{
    Places::at(2 * (n * k), 3 * (n * k), n)
}

// The number of a sample's nearest codeword, and its distance to that. Where no distance is below infinity, the search's
// own is infinity, and the distance is worked out once more.
#[tactic(auto, using(crate::proofs::AddLaw::found_below, crate::proofs::AddLaw::row_inside))]
fn nearest_cell(work: &[f64], n: usize, sample: &[f64]) -> Found
    requires { (0 < n) × (n * length sample.now ≤ length work.now) }
    ensures { result ≡ nearest_in n (length sample.now)
        (front n (length sample.now) work.now) (vector_of sample.now) }
{
    let k = sample.len();
    let words = n * k;
    let codewords = Codewords {
        values: &work[..words],
        count: n,
        dim: k,
    };
    let found = codewords.search(sample).found;
    if found.distance < f64::INFINITY {
        return found;
    }
    let index = found.index;
    let from = index * k;
    let to = from + k;
    let distance = lloyd_search::squared_distance(sample, &codewords.values[from..to]);
    Found { index, distance }
}

// Sample number s is added to the cell of its nearest codeword, and noted where it is the farthest there so far.
#[tactic(auto, using(crate::proofs::AddLaw::places_small, crate::proofs::AddLaw::near_below, crate::proofs::AddLaw::shape))]
fn add_sample(work: &mut [f64], counts: &mut [u32], numbers: &mut [u32], sample: &[f64], s: usize)
    requires { Addable (length sample.now) s work.old counts.old numbers.old }
    ensures work { work.new
        ≡ join_work (length counts.old) (length sample.now) sample.now work.old }
    ensures counts { counts.new
        ≡ join_counts (length counts.old) (length sample.now) sample.now work.old counts.old }
    ensures numbers { numbers.new
        ≡ join_numbers (length counts.old) (length sample.now) sample.now work.old s numbers.old }
{
    let n = counts.len();
    let p = places(n, sample.len());
    let near = nearest_cell(&*work, n, sample);
    let cell = near.index;
    let d = near.distance;
    if lloyd_cells::gather(work, counts, p, cell, sample, d) {
        numbers[cell] = s as u32;
    }
}

// Every sample is added up.
#[tactic(auto, using(crate::proofs::AddLaw::row_inside))]
fn add_samples(
    samples: &[f64],
    work: &mut [f64],
    counts: &mut [u32],
    numbers: &mut [u32],
    k: usize,
    count: usize,
)
    requires roomy { Roomy (length counts.old) k count samples.now work.old
        (counts.old ++ numbers.old) }
    requires none { let n = length counts.old in
        Added k n count samples.now (front n k work.old) 0 work.old counts.old numbers.old }
    ensures added { let n = length counts.old in
        Added k n count samples.now (front n k work.old) count work.new counts.new numbers.new }
    ensures kept { let n = length counts.old in
        Kept (places_of n k) n k work.old work.new }
{
    // Kept: no chunks_exact: the laws count the samples, and would first have to say that so many chunks are all of them.
    for s in 0..count {
        let at = s * k;
        let end = at + k;
        add_sample(
            &mut *work,
            &mut *counts,
            &mut *numbers,
            &samples[at..end],
            s,
        );
    }
}

// The samples go to their nearest codewords (the codebook at the front of the float work), are added up, and the cells
// get their means. Nothing below the words is touched; what else stands in the work is for the next steps.
#[tactic(auto, using(crate::proofs::AddLaw::places_small, crate::proofs::AddLaw::shape))]
pub fn begin_round(
    samples: &[f64],
    work: &mut [f64],
    ints: &mut [u32],
    n: usize,
    k: usize,
    count: usize,
)
    requires { Roomy n k count samples.now work.old ints.old }
    ensures first { (t : Terms) (codebook : List Float) → t.dim ≡ k → t.cells ≡ n
        → Holding n k 0 codebook work.old
        → AtFirst k n count samples.now codebook t work.new ints.new }
    ensures kept { (length work.new ≡ length work.old)
        × ((i : ℕ) → i < 2 * (n * k) → get_or work.new i nan ≡ get_or work.old i nan)
        × (length ints.new ≡ length ints.old) }
{
    let p = places(n, k);
    let (counts, numbers) = ints.split_at_mut(n);
    lloyd_cells::clear(&mut *work, &mut *counts, p);
    numbers.fill(0);
    add_samples(samples, &mut *work, &mut *counts, numbers, k, count);
    lloyd_cells::means(work, &*counts, p, k);
}
