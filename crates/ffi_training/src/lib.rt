// Training for the host. An event passes as C lays it out, a slice of events as a pointer and how many they are.
#![tactic(auto)]

ghost use Rattle.std.specs.Prelude.{◌≡◌, length};
ghost use Rattle.error.specs.Numbers.{completed, outcome, and_then};
ghost use Rattle.ieee.specs.Sum.{plus_zero};
ghost use Rattle.lloyd_update.specs.Alone.{update_alone, codebook_after, work_after, slots_after};
ghost use Rattle.lloyd_update.specs.Progress.{call_of};
ghost use Rattle.lloyd_refine.specs.Refine.{refinement, codewords_after};
ghost use Rattle.lloyd_refine.specs.Refine as Refine;
ghost use Rattle.lloyd_refine.specs.Report.{report_of, report_test};
ghost use Rattle.lloyd_refine.specs.Standing.{job_of};
ghost use Rattle.ffi_profile.specs.Profiles.{profile_from};
ghost use Rattle.ffi_crossing.specs.Crossing.{found, crossed, none, one_whole};
ghost use Rattle.ffi_training.specs.Training.{terms_from, winner_from, report_from, errors_in, report_after};

use error::Refusal;
use ffi_crossing::{put, put_answer, put_refusal};
use lloyd_events::LloydRepairEvent;
use lloyd_refine::LloydReport;
use lloyd_update::UpdateTerms;
use profile::GivenProfile;

// One update of a codebook, with the events of its repairs in the first slots.
#[unsafe(no_mangle)]
pub extern "C" fn fib_update(
    codebook: &mut [f64],
    samples: &[f64],
    assignments: &[u32],
    work: &mut [f64],
    counts: &mut [u32],
    events: &mut [LloydRepairEvent],
    codebook_size: u64,
    block_dim: u64,
    policy: u8,
    restart: u32,
    iteration: u32,
    whole: &mut [u64; 4],
    real: &mut [f64; 2],
) -> u32
    ensures { let c = call_of (terms_from samples.entry assignments.entry codebook_size block_dim
        policy restart iteration) codebook.old
        (length work.old) (length counts.old) (length events.old) in
        let outcome = and_then (update_alone c) (λ u. completed (length u.events)) in
        (found result whole.new real.new ≡ crossed one_whole outcome)
        × (codebook.new ≡ codebook_after c)
        × (work.new ≡ work_after plus_zero c work.old)
        × (counts.new ≡ work_after 0 c counts.old)
        × (events.new ≡ slots_after c events.old) }
{
    let t = UpdateTerms {
        samples,
        assignments,
        codebook_size,
        block_dim,
        policy: ffi_profile::choices::policy_at(policy),
        restart,
        iteration,
    };
    let answer = update::update_centroids(codebook, work, counts, events, t);
    put_answer(answer, whole, real)
}

// The winner of these two. Kept: what a number of the C interface counts as belongs to the exports.
fn winner_from(won: u8, number: u32) -> Option<u32>
    ensures { result ≡ winner_from won number }
{
    if won == 0 { None } else { Some(number) }
}

// The answer of a refinement: its two errors in `real`, the report's
// other members in `report`, which a refusal leaves as it was. Kept: matched here, by this buffer of its own.
fn put_refined(
    answer: Result<LloydReport, Refusal>,
    report: &mut [u64; 8],
    whole: &mut [u64; 4],
    real: &mut [f64; 2],
) -> u32
    ensures real_after { found result whole.new real.new ≡ crossed errors_in (outcome answer) }
    ensures report_after { report.new ≡ report_after (outcome answer) report.old }
{
    match answer {
        Ok(found) => {
            *report = [
                found.restarts as u64,
                found.iterations as u64,
                found.training_samples as u64,
                found.best_restart.is_some() as u64,
                found.best_restart.unwrap_or(0) as u64,
                found.empty_cells_repaired as u64,
                found.events_used as u64,
                found.seed,
            ];
            put(0, [0; 4], [found.init_mse, found.best_mse], whole, real)
        }
        Err(refusal) => put_refusal(refusal, whole, real),
    }
}

// A training, from an initial codebook and the matrices of its further restarts. An accepted one leaves in `report`: R,
// rounds, S; whether a restart won, 0 where the start was kept, and its number; repairs, events, seed.
#[unsafe(no_mangle)]
pub extern "C" fn fib_refine(
    schema: &[u8],
    ambient_dim: u32,
    block_dim: u32,
    codebook_size: u32,
    log2: f64,
    paper_rate: f64,
    wire_index_bits: u8,
    wire_rate: f64,
    norm_format: u8,
    rotation_seed: u64,
    rotation_algorithm: &[u8],
    codebook_seed: u64,
    source_mode: u8,
    radius_method: u8,
    direction_method: u8,
    restarts: u32,
    iterations: u32,
    training_samples: u32,
    empty_cell_policy: u8,
    initial: &[f64],
    samples: &[f64],
    matrices: &[f64],
    codewords: &mut [f32],
    work: &mut [f64],
    counts: &mut [u32],
    events: &mut [LloydRepairEvent],
    report: &mut [u64; 8],
    whole: &mut [u64; 4],
    real: &mut [f64; 2],
) -> u32
    ensures { let profile = profile_from ambient_dim block_dim codebook_size paper_rate
        wire_index_bits wire_rate norm_format rotation_seed codebook_seed source_mode radius_method
        direction_method restarts iterations training_samples empty_cell_policy in
        let j = job_of profile schema.now rotation_algorithm.now log2
        initial.now samples.now matrices.now (length codewords.old)
        (length work.old) (length counts.old) (length events.old) in
        let outcome = and_then (refinement j) (λ b. completed (report_of j b)) in
        (found result whole.new real.new ≡ crossed errors_in outcome)
        × (report.new ≡ report_after outcome report.old)
        × (codewords.new ≡ codewords_after j codewords.old)
        × (work.new ≡ Refine.work_after plus_zero j work.old)
        × (counts.new ≡ Refine.work_after 0 j counts.old)
        × (events.new ≡ Refine.slots_after j events.old) }
{
    let profile = ffi_profile::profile_from(
        ambient_dim,
        block_dim,
        codebook_size,
        paper_rate,
        wire_index_bits,
        wire_rate,
        norm_format,
        rotation_seed,
        codebook_seed,
        source_mode,
        radius_method,
        direction_method,
        restarts,
        iterations,
        training_samples,
        empty_cell_policy,
    );
    let given = GivenProfile {
        profile,
        schema,
        rotation_algorithm,
        log2,
    };
    let answer = refine::refine_codebook(
        given, initial, samples, matrices, codewords, work, counts, events,
    );
    put_refined(answer, report, whole, real)
}

// A report of this schema against the profile, of which the test needs neither the texts nor log2; `restart_won` is 0
// where the start was kept.
#[unsafe(no_mangle)]
pub extern "C" fn fib_validate_report(
    report_schema: &[u8],
    restarts_reported: u32,
    iterations_reported: u32,
    training_samples_reported: u32,
    init_mse: f64,
    best_mse: f64,
    restart_won: u8,
    best_restart: u32,
    empty_cells_repaired: u32,
    events_used: u32,
    seed: u64,
    ambient_dim: u32,
    block_dim: u32,
    codebook_size: u32,
    paper_rate: f64,
    wire_index_bits: u8,
    wire_rate: f64,
    norm_format: u8,
    rotation_seed: u64,
    codebook_seed: u64,
    source_mode: u8,
    radius_method: u8,
    direction_method: u8,
    restarts: u32,
    iterations: u32,
    training_samples: u32,
    empty_cell_policy: u8,
    whole: &mut [u64; 4],
    real: &mut [f64; 2],
) -> u32
    ensures { let report = report_from restarts_reported iterations_reported training_samples_reported
        init_mse best_mse (winner_from restart_won best_restart) empty_cells_repaired events_used seed in
        let profile = profile_from ambient_dim block_dim codebook_size paper_rate wire_index_bits wire_rate
        norm_format rotation_seed codebook_seed source_mode radius_method direction_method restarts
        iterations training_samples empty_cell_policy in
        found result whole.new real.new
        ≡ crossed none (report_test report report_schema.now profile) }
{
    let profile = ffi_profile::profile_from(
        ambient_dim,
        block_dim,
        codebook_size,
        paper_rate,
        wire_index_bits,
        wire_rate,
        norm_format,
        rotation_seed,
        codebook_seed,
        source_mode,
        radius_method,
        direction_method,
        restarts,
        iterations,
        training_samples,
        empty_cell_policy,
    );
    let report = LloydReport {
        restarts: restarts_reported,
        iterations: iterations_reported,
        training_samples: training_samples_reported,
        init_mse,
        best_mse,
        best_restart: winner_from(restart_won, best_restart),
        empty_cells_repaired,
        events_used,
        seed,
    };
    let verdict = lloyd_refine::validate_against_profile(report, report_schema, profile);
    put_answer(verdict, whole, real)
}
