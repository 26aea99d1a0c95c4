// The update of lloyd.rs, called alone: its checks, its means, its repairs one at a time, and its end.
// A repair is a value here; the event slots are written in one place
// above. The public functions are public only for the crates above.
// Kept: work and counts are parameters beside the terms, since they are written (as in lloyd_steps), and the number
// of slots too, which a caller of an update never hands in.
#![tactic(auto)]

ghost use Rattle.std.specs.Prelude.{◌≡◌, ℕ, ◌+◌, ◌*◌, ◌/◌, ◌<◌, ◌≤◌, true, false, cond, ◌&&◌, List, [], ◌∷◌, ◌++◌, length, take, replicate, pos, if◌then◌else◌, slice_index, is_ok};
ghost use Rattle.error.specs.Numbers.{outcome};
ghost use Rattle.ieee.specs.Sum.{plus_zero};
ghost use Rattle.lloyd_events.specs.declared.LloydRepairEvent.{LloydRepairEvent};
ghost use Rattle.lloyd_cells.specs.Cells.{count_to};
ghost use Rattle.lloyd_cells.specs.Repair.{Repaired};
ghost use Rattle.lloyd_update.specs.Alone.{Call, update_checks, value_checks};
ghost use Rattle.lloyd_update.specs.Progress.{call_of, places_of, Addable, Added, Matches, ReadyUpdate, ReadyAt, Going, Under, UpdateProgress};

use error::{Refusal, Slice};
use lloyd_cells::Places;
use lloyd_repair::{Numbers, Repair, RepairTerms};
use profile::EmptyCellPolicy;

// What an update is told: the samples with the cell of each, the shape of the codebook, and what its events bear.
#[derive(Clone, Copy)]
pub struct UpdateTerms<'a> {
    pub samples: &'a [f64],
    pub assignments: &'a [u32],
    pub codebook_size: u64,
    pub block_dim: u64,
    pub policy: EmptyCellPolicy,
    pub restart: u32,
    pub iteration: u32,
}

// Where an update stands.
// Kept: a refusal is a state, early or late, since the first leaves the buffers as they were and the second leaves them
// for the end.
#[derive(Clone, Copy)]
pub enum Step {
    // The checks refused it, and nothing was written.
    Refused(Refusal),
    // A repair was made, and its event is to be written.
    Made(Repair),
    // It has come to its answer, and work is to be zeroed.
    Stopped(Result<u32, Refusal>),
}

// The largest magnitude that an update takes: 2 ^ 48.
const UPDATE_LIMIT: f64 = 281474976710656.0;

// The checks of an update, in their order.
#[tactic(auto, using(lloyd_search::proofs::ShapeLaw::codebook_shape), unfolding(crate::specs::Alone::update_checks))]
fn check_update(
    codebook: &[f64],
    floats: usize,
    integers: usize,
    slots: usize,
    t: UpdateTerms<'_>,
) -> Result<(), Refusal>
    ensures { outcome result
        ≡ update_checks (call_of t.entry codebook.now floats integers slots) }
{
    let n = t.codebook_size;
    let k = t.block_dim;
    if !lloyd_search::codebook_shaped(n, k, codebook.len()) {
        return Err(Refusal::SliceLength(Slice::Initial));
    }
    if !lloyd_search::samples_shaped(k, t.samples.len()) {
        return Err(Refusal::SliceLength(Slice::Samples));
    }
    if floats as u64 != 2 * (n * k) + 2 * n {
        return Err(Refusal::SliceLength(Slice::FloatWork));
    }
    if integers as u64 != n {
        return Err(Refusal::SliceLength(Slice::IntegerWork));
    }
    if lloyd_events::MAX_EVENT_SLOTS < slots {
        return Err(Refusal::SliceLength(Slice::Events));
    }
    if t.assignments.len() as u64 != t.samples.len() as u64 / k {
        return Err(Refusal::SliceLength(Slice::Assignments));
    }
    check_values(codebook, t)
}

// The values of codebook and samples, then the assignments.
#[tactic(auto, unfolding(crate::specs::Alone::value_checks))]
fn check_values(codebook: &[f64], t: UpdateTerms<'_>) -> Result<(), Refusal>
    requires { t.codebook_size < 4294967296 }
    ensures { outcome result
        ≡ value_checks t.entry.codebook_size codebook.now t.entry.samples.now
        t.entry.assignments.now }
{
    slices::check_within(codebook, UPDATE_LIMIT, Slice::Initial)?;
    slices::check_within(t.samples, UPDATE_LIMIT, Slice::Samples)?;
    let n = t.codebook_size;
    for cell in t.assignments {
        if n <= *cell as u64 {
            return Err(Refusal::IndexOutOfRange {
                index: *cell,
                bound: n as u32,
            });
        }
    }
    Ok(())
}

// Where the parts of an update alone begin in its float work.
fn places(n: usize, k: usize) -> Places
    requires { 2 * (n * k) + n < 0x1_0000_0000_0000 }
    ensures { result ≡ places_of n k }
{
    Places::at(0, 2 * (n * k), n)
}

// Every sample is added to its cell, and the number of each cell's farthest sample noted.
fn add_samples(codebook: &[f64], work: &mut [f64], counts: &mut [u32], t: UpdateTerms<'_>)
    requires { Addable t.codebook_size t.block_dim codebook.now t.samples.now t.assignments.now
        work.old counts.old }
    ensures { (floats integers slots : ℕ) →
        let c = call_of t.entry codebook.now floats integers slots in
        Added c 0 work.old counts.old → Added c (length c.assignments) work.new counts.new }
{
    let n = t.codebook_size as usize;
    let k = t.block_dim as usize;
    let p = places(n, k);
    let numbers = n * k;
    for (s, cell) in t.assignments.iter().enumerate() {
        let cell = *cell as usize;
        let at = s * k;
        let from = cell * k;
        let sample = &t.samples[at..at + k];
        let d = lloyd_search::squared_distance(sample, &codebook[from..from + k]);
        if lloyd_cells::gather(&mut *work, &mut *counts, p, cell, sample, d) {
            let number = numbers + cell;
            work[number] = std::num::nearest_u64_to_f64(s as u64);
        }
    }
}

// How many cells are empty.
#[tactic(auto, using(crate::proofs::CountLaw::counted_items))]
pub fn count_empty(counts: &[u32]) -> usize
    ensures { result ≡ count_to (λ c. slice_index counts.now c) 0 (length counts.now) }
{
    counts.iter().filter(|count| **count == 0).count()
}

// The next repair after one that was made, whose event is the last of `used` events. What stands in work and counts
// is for the next steps; where it is refused it is left for the end to zero.
pub fn next_repair(
    work: &mut [f64],
    counts: &mut [u32],
    slots: usize,
    used: usize,
    t: UpdateTerms<'_>,
    made: Repair,
) -> Step
    requires { ReadyUpdate t slots used work.old counts.old made }
    ensures { (c : Call) (events : List LloydRepairEvent) → Matches c t.entry slots
        → used ≡ length (events ++ (made.event ∷ [])) → Going c events work.old counts.old made
        → UpdateProgress c (events ++ (made.event ∷ [])) work.new counts.new result }
{
    repair_on(work, counts, slots, used, t, made.next)
}

// The repairs from a cell on, up to the next one that is made.
fn repair_on(
    work: &mut [f64],
    counts: &mut [u32],
    slots: usize,
    used: usize,
    t: UpdateTerms<'_>,
    from: usize,
) -> Step
    requires { ReadyAt t slots used work.old counts.old from }
    ensures { (c : Call) (r : Repaired) → Matches c t.entry slots → used ≡ length r.events
        → Under c from r work.old counts.old
        → UpdateProgress c r.events work.new counts.new result }
{
    let n = t.codebook_size as usize;
    let k = t.block_dim as usize;
    let numbers = Numbers::InFloats(n * k);
    let terms = RepairTerms {
        dim: k,
        cells: n,
        restart: t.restart,
        iteration: t.iteration,
        free: slots,
        shown: slots,
    };
    match lloyd_repair::repair_next(
        work,
        counts,
        t.samples,
        places(n, k),
        numbers,
        terms,
        from,
        used,
    ) {
        Ok(Some(repair)) => Step::Made(repair),
        Ok(None) => Step::Stopped(Ok(used as u32)),
        Err(refusal) => Step::Stopped(Err(refusal)),
    }
}

// The checks, the means, and the first repair. Once it has begun, what stands in work and counts is for the next steps;
// where it is refused it is left for the end to zero.
pub fn begin_update(
    codebook: &[f64],
    work: &mut [f64],
    counts: &mut [u32],
    slots: usize,
    t: UpdateTerms<'_>,
) -> Step
    ensures progress { UpdateProgress
        (call_of t.entry codebook.now (length work.old) (length counts.old) slots)
        [] work.new counts.new result }
    ensures early { (x : Refusal) → result ≡ Step.Refused x → (work.new ≡ work.old)
        × (counts.new ≡ counts.old) }
{
    if let Err(r) = check_update(codebook, work.len(), counts.len(), slots, t) {
        return Step::Refused(r);
    }
    let n = t.codebook_size as usize;
    let k = t.block_dim as usize;
    let p = places(n, k);
    lloyd_cells::clear(&mut *work, &mut *counts, p);
    add_samples(codebook, &mut *work, &mut *counts, t);
    lloyd_cells::means(&mut *work, &*counts, p, k);
    let empty = count_empty(&*counts);
    let policy = t.policy;
    if let EmptyCellPolicy::FailClosed = policy {
        if 0 < empty {
            return Step::Stopped(Err(Refusal::EmptyCells(empty as u64)));
        }
    }
    repair_on(work, counts, slots, 0, t, 0)
}

// The codebook becomes the first values of the work.
#[tactic(auto, using(slices::proofs::ListLaw::patched_more), unfolding(slices::specs::Lists::patched))]
fn copy_words(codebook: &mut [f64], work: &[f64])
    requires { length codebook.old ≤ length work.now }
    ensures { codebook.new ≡ take (length codebook.old) work.now }
{
    // Kept: a loop, as compact's write_part is one.
    for (i, word) in codebook.iter_mut().enumerate() {
        *word = work[i];
    }
}

// The end of an update that passed its checks: it writes the codebook where it is accepted, and zeroes the work.
pub fn finish_update(
    codebook: &mut [f64],
    work: &mut [f64],
    counts: &mut [u32],
    answer: Result<u32, Refusal>,
) -> Result<u32, Refusal>
    requires { is_ok answer ≡ true → length codebook.old ≤ length work.old }
    ensures answer { result ≡ answer }
    ensures codebook { codebook.new
        ≡ cond (is_ok answer) (take (length codebook.old) work.old) codebook.old }
    ensures work { work.new ≡ replicate (length work.old) plus_zero }
    ensures counts { counts.new ≡ replicate (length counts.old) 0 }
{
    if let Ok(_) = answer {
        copy_words(codebook, &*work);
    }
    slices::zero_f64(work);
    slices::zero_u32(counts);
    answer
}
