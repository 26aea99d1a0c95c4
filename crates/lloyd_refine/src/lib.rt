// The refinement of lloyd.rs: its checks, the repairs of a round,
// the end of a restart, its own end, and the test of its report.
// A repair is a value here; its event is written in one place above. The public functions but the test of a
// report are public only for the crates above.
#![tactic(auto)]

ghost use Rattle.std.specs.Prelude.{◌≡◌, true, is_ok, cond, [], ◌++◌, ◌+◌, ◌*◌, ◌/◌, ◌≤◌, ◌<◌, length, get_or, take, replicate};
ghost use Rattle.std.specs.Float.{nan, binary32};
ghost use Rattle.std.specs.Float.Ieee.{lt};
ghost use Rattle.error.specs.Numbers.{outcome};
ghost use Rattle.ieee.specs.Sum.{plus_zero};
ghost use Rattle.slices.specs.Lists.{tabulate, patched};
ghost use Rattle.narrow.specs.Pack.{narrow_to};
ghost use Rattle.profile.specs.Valid.{Valid};
ghost use Rattle.lloyd_search.specs.Distance.{row_of};
ghost use Rattle.lloyd_search.specs.Nearest.{mean_error};
ghost use Rattle.lloyd_events.specs.declared.LloydRepairEvent.{LloydRepairEvent};
ghost use Rattle.lloyd_events.specs.Events.{zero_event};
ghost use Rattle.lloyd_cells.specs.Repair.{Repaired};
ghost use Rattle.lloyd_refine.specs.Refine.{Job, Best, Trained, room_of, length_checks, refine_checks};
ghost use Rattle.lloyd_refine.specs.Report.{winner_below, same_settings, report_test};
ghost use Rattle.lloyd_refine.specs.Standing.{job_told, InRound, MatchesRound};
ghost use Rattle.lloyd_refine.specs.Pauses.{report_in, with_best, paused, InSameRound, Pausing, ReadyIn};

use error::{Refusal, ReportSite, Slice};
use lloyd_events::LloydRepairEvent;
use lloyd_repair::{Numbers, Repair, RepairTerms};
use lloyd_search::Codewords;
use profile::{FibQuantProfile, GivenProfile};

// What a refinement is told beside its buffers; `slots` is how many events fit.
#[derive(Clone, Copy)]
pub struct RefineTerms<'a> {
    pub given: GivenProfile<'a>,
    pub initial: &'a [f64],
    pub samples: &'a [f64],
    pub matrices: &'a [f64],
    pub slots: usize,
}

// What a refinement found. It counts the repairs and the events that were written.
#[derive(Clone, Copy)]
pub struct LloydReport {
    pub restarts: u32,
    pub iterations: u32,
    pub training_samples: u32,
    pub init_mse: f64,
    pub best_mse: f64,
    // The restart that won, or none where the start is kept.
    pub best_restart: Option<u32>,
    pub empty_cells_repaired: u32,
    pub events_used: u32,
    pub seed: u64,
}

// Which round a refinement stands in, and what it has found so far. With the work it can be stopped and taken up again.
#[derive(Clone, Copy)]
pub struct RefineState {
    pub restart: u32,
    pub iteration: u32,
    // The cell whose turn is next.
    pub next: usize,
    // The events of the rounds before, and of this one.
    pub before: usize,
    pub made: usize,
    pub init_mse: f64,
    pub best_mse: f64,
    pub best_restart: Option<u32>,
}

// A repair that a refinement has made: its event, which is to be written, and where the refinement goes on.
#[derive(Clone, Copy)]
pub struct RefineRepair {
    pub event: LloydRepairEvent,
    pub state: RefineState,
}

// How far a refinement has come, unless it is refused: to a repair, or to its report.
#[derive(Clone, Copy)]
pub enum RefineStep {
    Made(RefineRepair),
    Done(LloydReport),
}

// Every cell of a round has had its turn; or the refinement has come to a step.
#[derive(Clone, Copy)]
pub enum Pause {
    RoundOver(RefineState),
    At(RefineStep),
}

// The largest magnitude that a refinement takes: 2 ^ 20.
const REFINE_LIMIT: f64 = 1048576.0;

// The lengths of the slices, for a profile that is valid.
#[tactic(auto, unfolding(crate::specs::Refine::length_checks))]
fn check_lengths(
    terms: RefineTerms,
    codewords: usize,
    floats: usize,
    integers: usize,
) -> Result<(), Refusal>
    requires { Valid terms.given.profile }
    ensures { let j = job_told terms.entry codewords floats integers in
        outcome result ≡ length_checks (room_of j) j }
{
    let profile = terms.given.profile;
    let n = profile.codebook_size as usize;
    let k = profile.block_dim as usize;
    let count = profile.training_samples as usize;
    let later = profile.lloyd_restarts as usize - 1;
    if terms.initial.len() != n * k {
        return Err(Refusal::SliceLength(Slice::Initial));
    }
    if terms.samples.len() != count * k {
        return Err(Refusal::SliceLength(Slice::Samples));
    }
    if terms.matrices.len() != later * (k * k) {
        return Err(Refusal::SliceLength(Slice::Matrix));
    }
    if codewords != n * k {
        return Err(Refusal::SliceLength(Slice::Codewords));
    }
    if floats != 3 * (n * k) + 2 * n {
        return Err(Refusal::SliceLength(Slice::FloatWork));
    }
    if integers != 2 * n {
        return Err(Refusal::SliceLength(Slice::IntegerWork));
    }
    if lloyd_events::MAX_EVENT_SLOTS < terms.slots {
        return Err(Refusal::SliceLength(Slice::Events));
    }
    Ok(())
}

// The checks of a refinement, in their order.
#[tactic(auto, using(crate::proofs::CheckLaw::one_by_one, error::proofs::Refusals::also_exit, error::proofs::Refusals::also_on, profile::proofs::Facts::valid))]
pub fn check_refine(
    terms: RefineTerms,
    codewords: usize,
    floats: usize,
    integers: usize,
) -> Result<(), Refusal>
    ensures { outcome result ≡ refine_checks (job_told terms.entry codewords floats integers) }
{
    terms.given.validate()?;
    check_lengths(terms, codewords, floats, integers)?;
    slices::check_within(terms.initial, REFINE_LIMIT, Slice::Initial)?;
    slices::check_within(terms.samples, REFINE_LIMIT, Slice::Samples)?;
    slices::check_within(terms.matrices, REFINE_LIMIT, Slice::Matrix)
}

// The report of what has been found so far.
pub fn report(profile: FibQuantProfile, s: RefineState) -> LloydReport
    requires { s.before ≤ 1048576 }
    ensures { result ≡ report_in profile s }
{
    LloydReport {
        restarts: profile.lloyd_restarts,
        iterations: profile.lloyd_iterations,
        training_samples: profile.training_samples,
        init_mse: s.init_mse,
        best_mse: s.best_mse,
        best_restart: s.best_restart,
        empty_cells_repaired: s.before as u32,
        events_used: s.before as u32,
        seed: profile.codebook_seed,
    }
}

// Where a turn of the repairs leaves a refinement that it does not refuse.
fn paused(profile: FibQuantProfile, s: RefineState, turn: Option<Repair>) -> Pause
    requires { s.made ≤ 1048576 }
    ensures { result ≡ paused profile s turn }
{
    match turn {
        Some(repair) => {
            let state = RefineState {
                next: repair.next,
                made: s.made + 1,
                ..s
            };
            Pause::At(RefineStep::Made(RefineRepair {
                event: repair.event,
                state,
            }))
        }
        None => Pause::RoundOver(RefineState {
            next: profile.codebook_size as usize,
            ..s
        }),
    }
}

// The repairs of a round from the next cell on, up to the next one that is made, or to the end of the round. What
// stands in the work beside its codebooks is for the next steps; where it is refused it is left for the end to zero.
pub fn repair_on(
    terms: RefineTerms,
    work: &mut [f64],
    ints: &mut [u32],
    s: RefineState,
) -> Result<Pause, Refusal>
    requires { ReadyIn terms work.old ints.old s }
    ensures stands { (j : Job) (b : Best) (t : Trained) (u : Repaired) → MatchesRound j terms.entry
        → InRound j b t u s work.old ints.old
        → Pausing j (t.events ++ u.events) work.new ints.new result }
    ensures round { InSameRound s result }
{
    let profile = terms.given.profile;
    let n = profile.codebook_size as usize;
    let k = profile.block_dim as usize;
    let numbers = Numbers::InInts(n);
    let repairs = RepairTerms {
        dim: k,
        cells: n,
        restart: s.restart,
        iteration: s.iteration,
        free: terms.slots - s.before,
        shown: terms.slots,
    };
    let turn = lloyd_repair::repair_next(
        work,
        ints,
        terms.samples,
        lloyd_round::places(n, k),
        numbers,
        repairs,
        s.next,
        s.made,
    )?;
    Ok(paused(profile, s, turn))
}

// This restart's end is the best so far.
fn with_best(error: f64, s: RefineState) -> RefineState
    ensures { result ≡ with_best error s }
{
    RefineState {
        best_mse: error,
        best_restart: Some(s.restart),
        ..s
    }
}

// The end of a restart: its codebook is kept where its mean error is strictly less than the best so far.
// Kept: that k is above zero is asked here, of `mean_error` and of `samples_shaped`, which divide by it; a type for such
// a number would be unwrapped wherever k is read.
pub fn keep_better(
    samples: &[f64],
    work: &mut [f64],
    n: usize,
    k: usize,
    s: RefineState,
) -> RefineState
    requires { (0 < k) × (0 < length samples.now / k) × (length samples.now ≡ length samples.now / k * k)
        × (2 * (n * k) ≤ length work.old) }
    ensures work { work.new
        ≡ cond (lt (mean_error k n (row_of k (take (n * k) work.old)) (row_of k samples.now)
        (length samples.now / k)) s.best_mse)
        (patched work.old (n * k) (n * k) (λ i. get_or work.old (0 + i) nan))
        work.old }
    ensures state { result
        ≡ cond (lt (mean_error k n (row_of k (take (n * k) work.old)) (row_of k samples.now)
        (length samples.now / k)) s.best_mse)
        (with_best (mean_error k n (row_of k (take (n * k) work.old)) (row_of k samples.now)
        (length samples.now / k)) s) s }
{
    let values = n * k;
    let codewords = Codewords {
        values: &work[..values],
        count: n,
        dim: k,
    };
    let error = lloyd_search::mean_error(codewords, samples);
    if error < s.best_mse {
        lloyd_restart::copy_part(work, 0, values, values);
        return with_best(error, s);
    }
    s
}

// The end of a refinement that passed its checks: an accepted one writes the codewords from the best codebook, and
// work is zeroed.
pub fn finish_refine(
    codewords: &mut [f32],
    work: &mut [f64],
    ints: &mut [u32],
    answer: Result<LloydReport, Refusal>,
) -> Result<LloydReport, Refusal>
    requires { is_ok answer ≡ true → 2 * length codewords.old ≤ length work.old }
    ensures answer { result ≡ answer }
    ensures codewords { codewords.new
        ≡ cond (is_ok answer)
        (tabulate (length codewords.old)
        (λ i. narrow_to binary32 (get_or work.old (length codewords.old + i) nan)))
        codewords.old }
    ensures work { work.new ≡ replicate (length work.old) plus_zero }
    ensures ints { ints.new ≡ replicate (length ints.old) 0 }
{
    if answer.is_ok() {
        let best = codewords.len();
        lloyd_restart::narrow_out(&*work, best, codewords);
    }
    slices::zero_f64(work);
    slices::zero_u32(ints);
    answer
}

// The end of its slots: a refinement that is refused leaves no event.
pub fn finish_events(events: &mut [LloydRepairEvent], answer: Result<LloydReport, Refusal>)
    ensures { events.new ≡ cond (is_ok answer) events.old (replicate (length events.old) zero_event) }
{
    if answer.is_err() {
        lloyd_events::zero_events(events);
    }
}

// Whether the start was kept, or the restart that won is one of so many.
fn is_below(winner: Option<u32>, restarts: u32) -> bool
    ensures { result ≡ winner_below restarts winner }
{
    winner.is_none_or(|r| r < restarts)
}

// Whether a report has the profile's settings, and a winner that they allow.
fn same_settings(report: LloydReport, profile: FibQuantProfile) -> bool
    ensures { result ≡ same_settings report profile }
{
    report.restarts == profile.lloyd_restarts
        && report.iterations == profile.lloyd_iterations
        && report.training_samples == profile.training_samples
        && report.seed == profile.codebook_seed
        && is_below(report.best_restart, profile.lloyd_restarts)
}

// A report against its profile: its schema, settings and winner, its errors, its counts.
#[tactic(auto, unfolding(crate::specs::Report::report_test, crate::specs::Report::report_schema, profile::specs::Fields::ascii))]
pub fn validate_against_profile(
    report: LloydReport,
    schema: &[u8],
    profile: FibQuantProfile,
) -> Result<(), Refusal>
    ensures { outcome result ≡ report_test report schema.now profile }
{
    if !(profile::checks::same(schema, b"lloyd_report_v1") && same_settings(report, profile)) {
        return Err(Refusal::Report(ReportSite::Settings));
    }
    if !(ieee::is_finite(report.init_mse) && ieee::is_finite(report.best_mse)) {
        return Err(Refusal::Report(ReportSite::Mse));
    }
    if report.empty_cells_repaired != report.events_used {
        return Err(Refusal::Report(ReportSite::RepairCount));
    }
    Ok(())
}
