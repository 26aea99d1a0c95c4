// The cells of an update, in lent work: adding samples up, the means, and the repair of one empty cell.
// Every function here is public only for the crates above, which lend work of the right lengths.
#![tactic(auto)]

ghost use Rattle.std.specs.Prelude.{◌≡◌, ◌⊎◌, ◌+◌, ◌*◌, ◌≤◌, ◌<◌, ◌^◌, pos, true, not, length, get_or, set, replicate, MatchOption};
ghost use Rattle.std.specs.Float.{nan, binary64};
ghost use Rattle.std.specs.Float.Ieee.{add, sub, div, lt, of_int};
ghost use Rattle.slices.specs.Lists.{patched};
ghost use Rattle.lloyd_search.specs.Distance.{vector_of};
ghost use Rattle.lloyd_cells.specs.Repair.{donor_to, shift, residual_norm};
ghost use Rattle.lloyd_cells.specs.Work.{places_at, cleared, Fit, gather_work, means_to, split_work, split_counts};

// Where the parts of an update begin in the float work.
// Kept: places in a buffer that is lent whole, by the exports' interface. Slices of its parts would be handed to each
// step one by one, and put together again for what a step says of the whole.
// Kept: functions over the lent work and counts, four of which ask for `Fit`. Methods of a struct of these would each
// say that places and coordinates stay; and places that held their own order would leave three facts (where the work
// ends, how many counts, how many coordinates) in the place of the one.
#[derive(Clone, Copy)]
pub struct Places {
    pub words: usize,
    pub distortions: usize,
    pub farthest: usize,
}

impl Places {
    // The n distortions stand before the n farthest distances.
    pub fn at(words: usize, distortions: usize, n: usize) -> Places
        requires { distortions + n < 0x1_0000_0000_0000 }
        ensures { result ≡ places_at words distortions n }
    {
        Places {
            words,
            distortions,
            farthest: distortions + n,
        }
    }
}

// By how much a donor's codeword is moved.
pub const DONOR_SPLIT_EPSILON: f64 = 1.0e-6;

// Nothing is added up yet: zeros, and farthest distances below every distance.
pub fn clear(work: &mut [f64], counts: &mut [u32], p: Places)
    requires { (p.words ≤ p.farthest) × (p.farthest + length counts.old ≤ length work.old) }
    ensures work { work.new ≡ cleared p (length counts.old) work.old }
    ensures counts { counts.new ≡ replicate (length counts.old) 0 }
{
    let end = p.farthest + counts.len();
    work[p.words..p.farthest].fill(0.0);
    work[p.farthest..end].fill(-1.0);
    counts.fill(0);
}

// A sample is added to the values from `at` on.
#[tactic(auto, using(slices::proofs::ListLaw::patched_more, slices::proofs::PartLaw::part_next, slices::proofs::PartLaw::part_written), unfolding(slices::specs::Lists::patched))]
pub fn add_to(work: &mut [f64], at: usize, sample: &[f64])
    requires { at + length sample.now ≤ length work.old }
    ensures { work.new
        ≡ patched work.old at (length sample.now)
        (λ j. add binary64 (get_or work.old (at + j) nan) (vector_of sample.now j)) }
{
    let end = at + sample.len();
    // Kept: an index beside iter_mut, since after a zip with it a proof knows nothing of what was written.
    for (j, value) in work[at..end].iter_mut().enumerate() {
        *value = *value + sample[j];
    }
}

// The k values from `at` on are divided by the count.
#[tactic(auto, using(slices::proofs::ListLaw::patched_more, slices::proofs::PartLaw::part_next, slices::proofs::PartLaw::part_written), unfolding(slices::specs::Lists::patched))]
pub fn divide(work: &mut [f64], at: usize, k: usize, count: u32)
    requires { at + k ≤ length work.old }
    ensures { work.new
        ≡ patched work.old at k
        (λ j. div binary64 (get_or work.old (at + j) nan) (of_int binary64 (pos count))) }
{
    let divisor = count as f64;
    let end = at + k;
    for value in &mut work[at..end] {
        *value = *value / divisor;
    }
}

// Whether a later cell's distortion takes the place of the best so far: where it is no smaller.
fn takes_over(d: f64, best: Option<(usize, f64)>) -> bool
    ensures { MatchOption best (result ≡ true) (λ b. result ≡ not (lt d b.1)) }
{
    best.is_none_or(|(_, largest)| !(d < largest))
}

// The cell of tally above 1 with the largest distortion, the last of equals.
#[tactic(auto, unfolding(crate::specs::Repair::donor_to))]
pub fn choose_donor(counts: &[u32], work: &[f64], distortions: usize) -> Option<usize>
    requires { distortions + length counts.now ≤ length work.now }
    ensures { result ≡ donor_to (λ c. get_or counts.now c 0)
        (λ c. get_or work.now (distortions + c) nan) (length counts.now) }
{
    let mut best: Option<(usize, f64)> = None;
    for (c, count) in counts.iter().enumerate() {
        let d = work[distortions + c];
        if 1 < *count && takes_over(d, best) {
            best = Some((c, d));
        }
    }
    best.map(|(c, _)| c)
}

// How far a coordinate of a donor's codeword is moved along the residual's direction.
fn shift_of(far: f64, word: f64, norm: f64) -> f64
    ensures { result ≡ shift far word norm }
{
    DONOR_SPLIT_EPSILON * ((far - word) / norm)
}

// The empty cell's codeword: the donor's, moved towards its farthest sample.
#[tactic(auto, using(slices::proofs::ListLaw::patched_more, slices::proofs::ListLaw::patched_next), unfolding(slices::specs::Lists::patched))]
pub fn move_to(work: &mut [f64], donor: usize, empty: usize, far: &[f64], norm: f64)
    requires { (donor + length far.now ≤ length work.old) × (empty + length far.now ≤ length work.old)
        × ((empty + length far.now ≤ donor) ⊎ (donor + length far.now ≤ empty)) }
    ensures { work.new
        ≡ patched work.old empty (length far.now)
        (λ j. add binary64 (get_or work.old (donor + j) nan)
        (shift (vector_of far.now j) (get_or work.old (donor + j) nan) norm)) }
{
    for (j, x) in far.iter().enumerate() {
        let word = work[donor + j];
        work[empty + j] = word + shift_of(*x, word, norm);
    }
}

// Kept: beside `move_to`, which reads one codeword and writes another, where this one reads what it writes: one function
// for both would take the operation as a closure, and a contract longer than both bodies.
// The donor's own codeword: moved away from its farthest sample.
#[tactic(auto, using(slices::proofs::ListLaw::patched_more, slices::proofs::PartLaw::part_next, slices::proofs::PartLaw::part_written), unfolding(slices::specs::Lists::patched))]
pub fn move_back(work: &mut [f64], donor: usize, far: &[f64], norm: f64)
    requires { donor + length far.now ≤ length work.old }
    ensures { work.new
        ≡ patched work.old donor (length far.now)
        (λ j. sub binary64 (get_or work.old (donor + j) nan)
        (shift (vector_of far.now j) (get_or work.old (donor + j) nan) norm)) }
{
    let end = donor + far.len();
    for (j, word) in work[donor..end].iter_mut().enumerate() {
        *word = *word - shift_of(far[j], *word, norm);
    }
}

// One more sample, at distance d from the old codeword of its
// cell. Answers whether it is the farthest of its cell so far.
#[tactic(auto, using(crate::proofs::FitLaw::word_within))]
pub fn gather(
    work: &mut [f64],
    counts: &mut [u32],
    p: Places,
    cell: usize,
    sample: &[f64],
    d: f64,
) -> bool
    requires { (cell < length counts.old) × (get_or counts.old cell 0 + 1 < 2 ^ 32)
        × Fit p (length counts.old) (length sample.now) (length work.old) }
    ensures far { result ≡ lt (get_or work.old (p.farthest + cell) nan) d }
    ensures work { work.new
        ≡ gather_work p (length sample.now) cell sample.now d work.old }
    ensures counts { counts.new
        ≡ set counts.old cell (get_or counts.old cell 0 + 1) }
{
    let at = p.words + cell * sample.len();
    add_to(&mut *work, at, sample);
    let sum = p.distortions + cell;
    work[sum] = work[sum] + d;
    counts[cell] = counts[cell] + 1;
    let best = p.farthest + cell;
    if work[best] < d {
        work[best] = d;
        true
    } else {
        false
    }
}

// The sums of the cells with samples become their means.
#[tactic(auto, using(crate::proofs::FitLaw::word_within), unfolding(crate::specs::Work::means_to))]
pub fn means(work: &mut [f64], counts: &[u32], p: Places, k: usize)
    requires { Fit p (length counts.now) k (length work.old) }
    ensures { work.new ≡ means_to p k counts.now work.old (length counts.now) }
{
    for (c, count) in counts.iter().enumerate() {
        if 0 < *count {
            divide(&mut *work, p.words + c * k, k, *count);
        }
    }
}

// The norm of a donor's residual: its farthest sample less its codeword as it now stands.
pub fn residual_norm(work: &[f64], at: usize, far: &[f64]) -> f64
    requires { at + length far.now ≤ length work.now }
    ensures { result ≡ residual_norm (length far.now) (vector_of far.now)
        (λ j. get_or work.now (at + j) nan) }
{
    let end = at + far.len();
    root::sqrt(lloyd_search::squared_distance(far, &work[at..end]))
}

// The donor is split for the empty cell.
// Kept: donor, far and norm are parameters; only this and the repair that calls it share all of them, since
// the donor of `move_to` and `move_back` is a place in the work.
#[tactic(auto, using(crate::proofs::FitLaw::word_within, crate::proofs::FitLaw::words_apart))]
pub fn split_cell(
    work: &mut [f64],
    counts: &mut [u32],
    p: Places,
    donor: usize,
    empty: usize,
    far: &[f64],
    norm: f64,
)
    requires { (donor < length counts.old) × (empty < length counts.old) × (donor ≡ empty → ⊥)
        × (0 < get_or counts.old donor 0)
        × Fit p (length counts.old) (length far.now) (length work.old) }
    ensures work { work.new
        ≡ split_work p (length far.now) donor empty far.now norm work.old }
    ensures counts { counts.new ≡ split_counts donor empty counts.old }
{
    let k = far.len();
    let from = p.words + donor * k;
    let to = p.words + empty * k;
    move_to(&mut *work, from, to, far, norm);
    move_back(&mut *work, from, far, norm);
    let d = p.distortions + donor;
    work[d] = 0.0;
    let e = p.distortions + empty;
    work[e] = 0.0;
    counts[donor] = counts[donor] - 1;
    counts[empty] = 1;
}
