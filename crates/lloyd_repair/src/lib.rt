// The repair of empty cells, one at a time: the next empty cell, its donor, the donor's farthest sample, the split.
// Every function here is public only for the crates above, which lend work of the right lengths.
#![tactic(auto)]

ghost use Rattle.std.specs.Prelude.{◌≡◌, ℕ, ◌<◌, ◌≤◌, length, ◌≢◌, MatchOption, slice_index, Float};
ghost use Rattle.lloyd_cells.specs.Repair.{Cells, Repaired, event_of};
ghost use Rattle.lloyd_cells.specs.Work.{Fit, Kept, split_work, split_counts};
ghost use Rattle.lloyd_repair.specs.Running.{terms_of, cells_in, Numbered, NumberAt, Running, ReadyRepairs, Chosen, Turned, BehindKept};

use error::Refusal;
use lloyd_cells::Places;
use lloyd_events::LloydRepairEvent;

// A residual of no larger norm has no direction: 2 ^ -52.
const LEAST_NORM: f64 = 2.220446049250313e-16;

// Where the numbers of the cells' farthest samples begin, in one of the two works.
#[derive(Clone, Copy)]
pub enum Numbers {
    InFloats(usize),
    InInts(usize),
}

// What the repairs of an update are told: coordinates and cells, what
// their events bear, free slots, and the slots that a refusal shows.
#[derive(Clone, Copy)]
pub struct RepairTerms {
    pub dim: usize,
    pub cells: usize,
    pub restart: u32,
    pub iteration: u32,
    pub free: usize,
    pub shown: usize,
}

// A repair: its event, and the cell whose turn is next.
#[derive(Clone, Copy)]
pub struct Repair {
    pub event: LloydRepairEvent,
    pub next: usize,
}

// The number that is held for a cell.
fn number_of(m: Numbers, work: &[f64], ints: &[u32], cell: usize) -> usize
    requires { Numbered m cell work.now ints.now }
    ensures { (s : ℕ) → NumberAt m work.now ints.now cell s → result ≡ s }
{
    match m {
        Numbers::InFloats(start) => { std::num::truncating_f64_to_u64(work[start + cell]) as usize }
        Numbers::InInts(start) => ints[start + cell] as usize,
    }
}

// The first empty cell from `from` on.
fn next_empty(counts: &[u32], from: usize) -> Option<usize>
    ensures { MatchOption result
        ((c : ℕ) → from ≤ c → c < length counts.now → slice_index counts.now c ≢ 0)
        (λ e. (from ≤ e) × (e < length counts.now)
        × ((c : ℕ) → from ≤ c → c < e → slice_index counts.now c ≢ 0)
        × (slice_index counts.now e ≡ 0)) }
{
    for c in from..counts.len() {
        if counts[c] == 0 {
            return Some(c);
        }
    }
    None
}

// The donor is split for the empty cell e. Answers with the event of that, which shows the donor as it stood.
fn fill(
    work: &mut [f64],
    counts: &mut [u32],
    p: Places,
    t: RepairTerms,
    donor: usize,
    e: usize,
    far: &[f64],
    norm: f64,
) -> LloydRepairEvent
    requires { (donor < length counts.old) × (e < length counts.old) × (donor ≢ e)
        × (0 < slice_index counts.old donor)
        × Fit p (length counts.old) (length far.now) (length work.old)
        × (length counts.old ≤ 1048576) }
    ensures event { result
        ≡ event_of (terms_of t) (cells_in p t.dim work.old counts.old) donor e norm }
    ensures work { work.new
        ≡ split_work p (length far.now) donor e far.now norm work.old }
    ensures counts { counts.new ≡ split_counts donor e counts.old }
{
    let place = p.distortions + donor;
    let event = LloydRepairEvent {
        restart: t.restart,
        iteration: t.iteration,
        empty_cell: e as u32,
        donor_cell: donor as u32,
        donor_count_before: counts[donor],
        donor_distortion: work[place],
        residual_norm: norm,
        split_epsilon: lloyd_cells::DONOR_SPLIT_EPSILON,
    };
    lloyd_cells::split_cell(work, counts, p, donor, e, far, norm);
    event
}

// The empty cell e is repaired from its donor, if it can be.
// Kept: its parameters are those of `repair_next`, and of no third function; work and ints are written.
fn repair_from(
    work: &mut [f64],
    ints: &mut [u32],
    samples: &[f64],
    p: Places,
    m: Numbers,
    t: RepairTerms,
    e: usize,
    donor: usize,
    used: usize,
) -> Result<Option<Repair>, Refusal>
    requires ready { ReadyRepairs p m (terms_of t) samples.now used e work.old ints.old }
    requires chosen { Chosen p (terms_of t) e donor work.old ints.old }
    ensures turned { (far : ℕ → ℕ → Float) (start : Cells) (r : Repaired) → length r.events ≡ used
        → Running p m (terms_of t) samples.now far start e r work.old ints.old
        → Turned p m (terms_of t) samples.now far start r work.new ints.new result }
    ensures kept { Kept p t.cells t.dim work.old work.new }
    ensures ints { BehindKept t.cells ints.old ints.new }
{
    let k = t.dim;
    let free = t.free;
    let number = number_of(m, &*work, &*ints, donor);
    let at = number * k;
    let end = at + k;
    let far = &samples[at..end];
    let word = p.words + donor * k;
    let norm = lloyd_cells::residual_norm(&*work, word, far);
    if norm <= LEAST_NORM {
        return Err(Refusal::NoDirection(donor as u64));
    }
    if free <= used {
        return Err(Refusal::EventSlotsUsed(t.shown as u64));
    }
    let n = t.cells;
    let event = fill(work, &mut ints[..n], p, t, donor, e, far, norm);
    let next = e + 1;
    Ok(Some(Repair { event, next }))
}

// The next empty cell is repaired, if there is one and it can be; none is left where no repair comes back. What stands
// in the work from its words on and in the counts is for the next steps; where it is refused it is left for the end to
// zero.
pub fn repair_next(
    work: &mut [f64],
    ints: &mut [u32],
    samples: &[f64],
    p: Places,
    m: Numbers,
    t: RepairTerms,
    from: usize,
    used: usize,
) -> Result<Option<Repair>, Refusal>
    requires { ReadyRepairs p m (terms_of t) samples.now used from work.old ints.old }
    ensures turned { (far : ℕ → ℕ → Float) (start : Cells) (r : Repaired) → length r.events ≡ used
        → Running p m (terms_of t) samples.now far start from r work.old ints.old
        → Turned p m (terms_of t) samples.now far start r work.new ints.new result }
    ensures kept { Kept p t.cells t.dim work.old work.new }
    ensures ints { BehindKept t.cells ints.old ints.new }
{
    let counts = &ints[..t.cells];
    let Some(e) = next_empty(counts, from) else {
        return Ok(None);
    };
    let found = lloyd_cells::choose_donor(counts, &*work, p.distortions);
    let donor = found.ok_or(Refusal::NoDonor(e as u64))?;
    repair_from(work, ints, samples, p, m, t, e, donor, used)
}
