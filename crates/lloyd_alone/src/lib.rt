// Nearest and mean error of lloyd.rs, called alone.
#![tactic(auto)]

ghost use Rattle.std.specs.Prelude.{◌≡◌, ℕ, ◌<◌, ◌≤◌, ◌+◌, ◌*◌, ◌/◌, ◌^◌, true, length, Float};
ghost use Rattle.error.specs.Numbers.{outcome};
ghost use Rattle.lloyd_search.specs.Distance.{distance, vector_of, row_of};
ghost use Rattle.lloyd_search.specs.Choice.{mark_of};
ghost use Rattle.lloyd_search.specs.Four.{four_from};
ghost use Rattle.lloyd_alone.specs.Watch.{passing_two, watching, Measures, Watches, Sees, Small};
ghost use Rattle.lloyd_alone.specs.Answers.{search_limit, nearest_alone, mean_error_alone};

use error::{Refusal, Slice};
use lloyd_search::{Choice, Codewords, Found, NONE_PASSED};

// The codeword found, and whether another has the same distance: the choice was a toss.
// Kept: a flag beside a value that is there either way.
#[derive(Clone, Copy)]
pub struct Marked {
    pub found: Found,
    pub tied: bool,
}

// The largest magnitude that the search takes: 2 ^ 128.
const SEARCH_LIMIT: f64 = 340282366920938463463374607431768211456.0;

// A distance below 2 ^ 250, to a block of small values, shows that the codeword is within SEARCH_LIMIT.
const NEAR_LIMIT: f64 =
    1809251394333065553493296640760748560207343510400633813116524750123642650624.0;

// The largest magnitude of a small value: 2 ^ 127.
const SMALL_LIMIT: f64 = 170141183460469231731687303715884105728.0;

// What is kept of the codewords passed: the choice among them, and the sums of every fourth distance.
#[derive(Clone, Copy)]
struct Watched {
    best: Choice,
    sums: [f64; 4],
}

// Before any codeword is passed.
const UNWATCHED: Watched = Watched {
    best: NONE_PASSED,
    sums: [0.0; 4],
};

// The choice after two more codewords, the first of which has this number. They are compared with each other first, so
// that less waits for the choice before them; only a NaN would show the difference.
fn nearer_two(best: Choice, index: usize, first: f64, second: f64) -> Choice
    requires { index + 1 < 2 ^ 64 }
    ensures { result ≡ passing_two best index first second }
{
    let one = Choice {
        found: Found {
            index,
            distance: first,
        },
        last: index,
    };
    lloyd_search::choose(best, lloyd_search::nearer(one, index + 1, second))
}

// Four codewords more, the first of which has this number.
fn watch(before: Watched, index: usize, four: [f64; 4]) -> Watched
    requires { index + 3 < 2 ^ 64 }
    ensures { result ≡ watching before index (vector_of four) }
{
    let two = nearer_two(before.best, index, four[0], four[1]);
    let best = nearer_two(two, index + 2, four[2], four[3]);
    let sums = before.sums;
    Watched {
        best,
        sums: [
            sums[0] + four[0],
            sums[1] + four[1],
            sums[2] + four[2],
            sums[3] + four[3],
        ],
    }
}

// The whole fours of so many codewords, measured by `four`, which takes the number of the first of a four. The next four
// are measured before those at hand are compared.
fn watch_all<F: Fn(usize) -> [f64; 4]>(count: usize, four: F) -> Watched
    requires { (i : ℕ) → i + 4 ≤ count → F.pre four i }
    ensures { (k : ℕ) → (book : ℕ → ℕ → Float) → (x : ℕ → Float)
        → Measures (F.post four) k count book x → Watches k (count / 4) book x result }
{
    let mut before = UNWATCHED;
    let fours = count / 4;
    if fours == 0 {
        return before;
    }
    let last = fours - 1;
    let mut at_hand = four(0);
    for turn in 0..last {
        let index = turn * 4;
        let next = four(index + 4);
        before = watch(before, index, at_hand);
        at_hand = next;
    }
    watch(before, last * 4, at_hand)
}

// The squared distance of a block of four values to the codeword of this number: the sum without its loop.
// Kept: beside lloyd_search's, since the loop over four coordinates takes a tenth of a search among 32 codewords.
fn quad_distance(codewords: Codewords<f64>, index: usize, block: &[f64]) -> f64
    requires { (codewords.dim ≡ 4) × (length block.now ≡ 4) × (index < codewords.count) }
    ensures { result ≡ distance 4 (vector_of block.now) (row_of 4 codewords.entry.values.now index) }
{
    let at = index * 4;
    let e = codewords.values[at] - block[0];
    let f = codewords.values[at + 1] - block[1];
    let g = codewords.values[at + 2] - block[2];
    let h = codewords.values[at + 3] - block[3];
    (((0.0 + e * e) + f * f) + g * g) + h * h
}

// The squared distances of a block of four values to four codewords, the first of which has this number.
fn quad_distances(codewords: Codewords<f64>, index: usize, block: &[f64]) -> [f64; 4]
    requires { (codewords.dim ≡ 4) × (length block.now ≡ 4) × (index + 4 ≤ codewords.count) }
    ensures { result ≡ four_from 4 (vector_of block.now) (row_of 4 codewords.entry.values.now) index }
{
    [
        quad_distance(codewords, index, block),
        quad_distance(codewords, index + 1, block),
        quad_distance(codewords, index + 2, block),
        quad_distance(codewords, index + 3, block),
    ]
}

// The whole fours of codewords. Four values stay at hand from the first codeword to the last.
fn watch_fours(codewords: Codewords<f64>, block: &[f64]) -> Watched
    requires { length block.now ≡ codewords.dim }
    ensures { let k = codewords.entry.dim in
        Watches k (codewords.entry.count / 4) (row_of k codewords.entry.values.now) (vector_of block.now) result }
{
    if block.len() == 4 {
        watch_all(
            codewords.count,
            move |index|
                requires { (codewords.dim ≡ 4) × (length block.now ≡ 4) × (index + 4 ≤ codewords.count) }
                ensures { result ≡ four_from 4 (vector_of block.entry.now) (row_of 4 codewords.entry.values.now) index }
            { quad_distances(codewords, index, block) },
        )
    } else {
        let rows = codewords.values;
        watch_all(
            codewords.count,
            move |index|
                requires { (index + 4) * length block.now ≤ length rows.now }
                ensures { let k = length block.entry.now in
                    result ≡ four_from k (vector_of block.entry.now) (row_of k rows.entry.now) index }
            { lloyd_search::distances_from(rows, index, block) },
        )
    }
}

// What a search has seen: its choice, and whether every distance is known to be near, which is at most NEAR_LIMIT.
// Kept: a flag beside a value that is there either way.
#[derive(Clone, Copy)]
struct Seen {
    best: Choice,
    near: bool,
}

// `Codewords::search` that also tells whether every distance is known to be near.
fn search_near(codewords: Codewords<f64>, block: &[f64]) -> Seen
    requires { length block.now ≡ codewords.dim }
    ensures { let k = codewords.entry.dim in
        Sees k codewords.entry.count (row_of k codewords.entry.values.now) (vector_of block.now) result }
{
    let k = block.len();
    let watched = watch_fours(codewords, block);
    let mut best = watched.best;
    let sums = watched.sums;
    let mut near = (sums[0] + sums[1]) + (sums[2] + sums[3]) < NEAR_LIMIT;
    for i in codewords.count / 4 * 4..codewords.count {
        let at = i * k;
        let distance = lloyd_search::squared_distance(block, &codewords.values[at..at + k]);
        near = near & (distance < NEAR_LIMIT);
        best = lloyd_search::nearer(best, i, distance);
    }
    Seen { best, near }
}

// Whether the distances seen and the values of the block are so
// small that the block and every codeword are within SEARCH_LIMIT.
fn small_distances(seen: Seen, block: &[f64]) -> bool
    ensures { result ≡ true → Small seen block.now }
{
    seen.near && slices::first_outside(block, SMALL_LIMIT).is_none()
}

// The codeword that was chosen, marked.
fn with_mark(choice: Choice) -> Marked
    ensures { result ≡ record { found = choice.found; tied = mark_of choice } }
{
    let tied = lloyd_search::is_tied(choice);
    Marked {
        found: choice.found,
        tied,
    }
}

// The codeword nearest to a block, with its distance, the first of equals; and whether another has the same distance.
// Where the distances are small, they spare the scan of all codewords.
#[tactic(auto, unfolding(crate::specs::Answers::nearest_alone))]
pub fn nearest_index(
    codewords: &[f64],
    codebook_size: u64,
    block_dim: u64,
    block: &[f64],
) -> Result<Marked, Refusal>
    ensures { outcome result
        ≡ nearest_alone codebook_size block_dim codewords.now block.now }
{
    if !lloyd_search::codebook_shaped(codebook_size, block_dim, codewords.len()) {
        return Err(Refusal::SliceLength(Slice::Codewords));
    }
    if block.len() as u64 != block_dim {
        return Err(Refusal::SliceLength(Slice::Input));
    }
    let book = Codewords {
        values: codewords,
        count: codebook_size as usize,
        dim: block_dim as usize,
    };
    let seen = search_near(book, block);
    if !small_distances(seen, block) {
        slices::check_within(block, SEARCH_LIMIT, Slice::Input)?;
        slices::check_within(codewords, SEARCH_LIMIT, Slice::Codewords)?;
    }
    Ok(with_mark(seen.best))
}

// The mean of the samples' distances to their nearest codewords.
#[tactic(auto, unfolding(crate::specs::Answers::mean_error_alone))]
pub fn mse_for_codebook(
    codewords: &[f64],
    codebook_size: u64,
    block_dim: u64,
    samples: &[f64],
) -> Result<f64, Refusal>
    ensures { outcome result
        ≡ mean_error_alone codebook_size block_dim codewords.now samples.now }
{
    if !lloyd_search::codebook_shaped(codebook_size, block_dim, codewords.len()) {
        return Err(Refusal::SliceLength(Slice::Codewords));
    }
    if !lloyd_search::samples_shaped(block_dim, samples.len()) {
        return Err(Refusal::SliceLength(Slice::Samples));
    }
    if samples.len() == 0 {
        return Err(Refusal::ZeroDimension);
    }
    slices::check_within(samples, SEARCH_LIMIT, Slice::Samples)?;
    slices::check_within(codewords, SEARCH_LIMIT, Slice::Codewords)?;
    let book = Codewords {
        values: codewords,
        count: codebook_size as usize,
        dim: block_dim as usize,
    };
    Ok(lloyd_search::mean_error(book, samples))
}
