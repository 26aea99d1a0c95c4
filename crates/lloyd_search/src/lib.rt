// The search of lloyd.rs: the squared distance, the nearest codeword and the mean error of a codebook.
#![tactic(auto)]

mod codewords;

ghost use Rattle.std.specs.Prelude.{◌≡◌, ◌<◌, ◌≤◌, ◌+◌, ◌*◌, ◌/◌, ◌^◌, length, Bool, true, T, Float};
ghost use Rattle.std.specs.Float.{nan};
ghost use Rattle.std.specs.Float.Ieee.Scale.{finite};
ghost use Rattle.lloyd_search.specs.Distance.{distance, vector_of, row_of, vector_as, row_as, Widens};
ghost use Rattle.lloyd_search.specs.Nearest.{mean_error};
ghost use Rattle.lloyd_search.specs.Choice.{joined, passing, passing_all, mark_of, chosen};
ghost use Rattle.lloyd_search.specs.Four.{four_from};
ghost use Rattle.lloyd_search.specs.Shape.{codebook_shaped, samples_shaped};

pub use codewords::Codewords;
use profile::FibQuantProfile;

// A codeword's number and its distance.
#[derive(Clone, Copy)]
pub struct Found {
    pub index: usize,
    pub distance: f64,
}

// What a search keeps: the codeword chosen, and the number of the last
// that is as near, which is another's where the choice was a toss.
#[derive(Clone, Copy)]
pub struct Choice {
    pub found: Found,
    pub last: usize,
}

// Public only for the crates above: the choice before any codeword is passed.
pub const NONE_PASSED: Choice = Choice {
    found: Found {
        index: 0,
        distance: f64::INFINITY,
    },
    last: 0,
};

// Public only for the crates above: a coordinate as it is stored, which stands for a float, its value, that `widen` gives
// as binary64. The value of `missing` stands past the end of a list.
// Kept: `widens`, where f64::from needs no such condition: its test for a NaN cost encode's search 5 to 8 %, one at a time 15 to 40 %.
pub trait Coordinate: Copy {
    ghost value: { Self → Float };

    ghost missing: { Self };

    ghost widens: { Self → Bool };

    fn widen(self) -> f64
        requires { T (widens self) }
        ensures { result ≡ value self };
}

impl Coordinate for f64 {
    ghost value = { λ x. x };

    ghost missing = { nan };

    ghost widens = { λ x. true };

    fn widen(self) -> f64 {
        self
    }
}

impl Coordinate for f32 {
    ghost value = { λ x. x };

    ghost missing = { nan };

    ghost widens = { finite };

    #[tactic(auto, using(crate::proofs::WidenLaw::widens))]
    fn widen(self) -> f64 {
        self as f64
    }
}

// Public only for the crates above: the squared distance of two vectors of one length.
#[tactic(auto, unfolding(ieee::specs::Sum::sum_to))]
pub fn squared_distance<S: Coordinate, T: Coordinate>(a: &[S], b: &[T]) -> f64
    requires lengths { length a.now ≡ length b.now }
    requires a_widens { Widens S.widens S.missing a.now }
    requires b_widens { Widens T.widens T.missing b.now }
    ensures { result ≡ distance (length a.now) (vector_as S.value S.missing a.now) (vector_as T.value T.missing b.now) }
{
    let mut sum = 0.0;
    for (j, x) in a.iter().enumerate() {
        let delta = x.widen() - b[j].widen();
        sum = sum + delta * delta;
    }
    sum
}

// Public only for the crates above: the squared distances of a vector and four that stand one after another from the
// row of this number on: four sums side by side, each in its own order. The others' values are not needed again, so x is
// taken from them, which spares a copy of x; the square is the same.
#[tactic(auto, using(crate::proofs::Reading::read_widens))]
pub fn distances_from<S: Coordinate, T: Coordinate>(rows: &[T], index: usize, one: &[S]) -> [f64; 4]
    requires within { (index + 4) * length one.now ≤ length rows.now }
    requires one_widens { Widens S.widens S.missing one.now }
    requires rows_widen { Widens T.widens T.missing rows.now }
    ensures { result ≡ four_from (length one.now) (vector_as S.value S.missing one.now)
        (row_as T.value T.missing (length one.now) rows.now) index }
{
    let k = one.len();
    let at = index * k;
    let at2 = at + k;
    let at3 = at2 + k;
    let at4 = at3 + k;
    let mut sums = [0.0; 4];
    for (j, x) in one.iter().enumerate() {
        let x = x.widen();
        let e = rows[at + j].widen() - x;
        let f = rows[at2 + j].widen() - x;
        let g = rows[at3 + j].widen() - x;
        let h = rows[at4 + j].widen() - x;
        sums = [
            sums[0] + e * e,
            sums[1] + f * f,
            sums[2] + g * g,
            sums[3] + h * h,
        ];
    }
    sums
}

// Public only for the crates above: the choice of two, the second of which was made among later codewords. An equal one
// leaves the codeword found, and gives the last. Member by member, so that each is picked without a branch.
pub fn choose(before: Choice, later: Choice) -> Choice
    ensures { result ≡ joined before later }
{
    let first = before.found;
    let second = later.found;
    let closer = second.distance < first.distance;
    Choice {
        found: Found {
            index: if closer { second.index } else { first.index },
            distance: if closer {
                second.distance
            } else {
                first.distance
            },
        },
        last: if second.distance <= first.distance {
            later.last
        } else {
            before.last
        },
    }
}

// Public only for the crates above: the choice after one more codeword.
// Kept: beside `choose`: as a call of it LLVM makes the nearer of two by a branch, which takes nearest half as long again.
pub fn nearer(best: Choice, index: usize, distance: f64) -> Choice
    ensures { result ≡ passing best index distance }
{
    let found = best.found;
    let closer = distance < found.distance;
    Choice {
        found: Found {
            index: if closer { index } else { found.index },
            distance: if closer { distance } else { found.distance },
        },
        last: if distance <= found.distance {
            index
        } else {
            best.last
        },
    }
}

// Public only for the crates above: the mark of a choice, that another codeword is as near.
pub fn is_tied(choice: Choice) -> bool
    ensures { result ≡ mark_of choice }
{
    choice.last != choice.found.index
}

// Public only for the crates above: the choice after four more codewords, the first of which has this number.
pub fn nearer_four(best: Choice, index: usize, four: [f64; 4]) -> Choice
    requires { index + 3 < 2 ^ 64 }
    ensures { result ≡ passing_all best index (vector_of four) 4 }
{
    let mut best = best;
    for (m, distance) in four.iter().enumerate() {
        best = nearer(best, index + m, *distance);
    }
    best
}

impl<T: Coordinate> Codewords<'_, T> {
    // Public only for the crates above: the choice among the codewords, four at a time and then one at a time.
    pub fn search(self, block: &[f64]) -> Choice
        requires { length block.now ≡ self.dim }
        ensures { result ≡ chosen self.entry.dim self.entry.count
            (row_as T.value T.missing self.entry.dim self.entry.values.now) (vector_of block.now) }
    {
        let k = block.len();
        let mut best = self.search_fours(block);
        for i in self.count / 4 * 4..self.count {
            let at = i * k;
            best = nearer(best, i, squared_distance(block, &self.values[at..at + k]));
        }
        best
    }

    // The choice among the whole fours of codewords. The next four distances are under way while those before them are
    // compared, which a processor can do side by side.
    // Kept: a walk of its own beside lloyd_alone's, which keeps sums too: one for both would take what it does with four
    // distances as a closure, and an invariant of it in the contract.
    fn search_fours(self, block: &[f64]) -> Choice
        requires { length block.now ≡ self.dim }
        ensures { result ≡ chosen self.entry.dim (self.entry.count / 4 * 4)
            (row_as T.value T.missing self.entry.dim self.entry.values.now) (vector_of block.now) }
    {
        let mut best = NONE_PASSED;
        let fours = self.count / 4;
        if fours == 0 {
            return best;
        }
        let last = fours - 1;
        let mut four = distances_from(self.values, 0, block);
        for turn in 0..last {
            let index = turn * 4;
            let next = distances_from(self.values, index + 4, block);
            best = nearer_four(best, index, four);
            four = next;
        }
        nearer_four(best, last * 4, four)
    }
}

// Public only for the crates above: the mean error of a codebook over at least one whole sample.
#[tactic(auto, unfolding(ieee::specs::Sum::sum_to))]
pub fn mean_error(codewords: Codewords<f64>, samples: &[f64]) -> f64
    requires { (0 < codewords.dim) × (0 < length samples.now / codewords.dim)
        × (length samples.now ≡ length samples.now / codewords.dim * codewords.dim) }
    ensures { let k = codewords.entry.dim in
        result ≡ mean_error k codewords.entry.count (row_of k codewords.entry.values.now) (row_of k samples.now)
        (length samples.now / k) }
{
    let k = codewords.dim;
    let mut sum = 0.0;
    for sample in samples.chunks_exact(k) {
        sum = sum + codewords.search(sample).found.distance;
    }
    sum / ieee::from_u64((samples.len() / k) as u64)
}

// Public only for the crates above: whether this many values are
// n codewords of k coordinates, within the limits of calls alone.
pub fn codebook_shaped(n: u64, k: u64, values: usize) -> bool
    ensures { result ≡ codebook_shaped n k values }
{
    1 <= k
        && k <= FibQuantProfile::MAX_BLOCK_DIM
        && 1 <= n
        && n <= FibQuantProfile::MAX_CODEBOOK_SIZE
        && values as u64 == n * k
}

// Public only for the crates above: whether this many values are whole samples of k coordinates, at most ten million.
pub fn samples_shaped(k: u64, values: usize) -> bool
    requires { 0 < k }
    ensures { result ≡ samples_shaped k values }
{
    values as u64 % k == 0 && values as u64 / k <= FibQuantProfile::MAX_TRAINING_SAMPLES as u64
}
