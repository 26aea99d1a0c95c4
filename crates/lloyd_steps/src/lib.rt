// The refinement step by step, once its checks are passed: to the first repair, and
// from one repair to the next, over the rounds and restarts between them.
// The public functions are public only for the crate above, which writes the event slots.
// Kept: work, ints and the state are parameters beside the terms: the first two are written, and each contract
// of a struct of them would say that its other members stay.
#![tactic(auto)]

ghost use Rattle.std.specs.Prelude.{◌≡◌, Ok, List, [], ◌∷◌, ◌++◌, ◌+◌, ◌*◌, ◌<◌, length};
ghost use Rattle.error.specs.Numbers.{completed};
ghost use Rattle.lloyd_events.specs.declared.LloydRepairEvent.{LloydRepairEvent};
ghost use Rattle.lloyd_refine.specs.Refine.{Job, Best, Trained, refine_checks};
ghost use Rattle.lloyd_refine.specs.Standing.{Going, RefineProgress, MatchesRound, Matches, ReadyRefine};
ghost use Rattle.lloyd_refine.specs.Pauses.{InSameRound, Over, Pausing};
ghost use Rattle.lloyd_steps.specs.Steps.{rounds_left, first_state, AtRound, ReadyRound, ReadyOver, ReadyEnd, ReadyPause, ReadyJob};

use error::Refusal;
use lloyd_refine::{Pause, RefineRepair, RefineState, RefineStep, RefineTerms};
use lloyd_search::Codewords;
use profile::EmptyCellPolicy;

// A round begins: samples go to their nearest codewords, the cells get their means, and then come the repairs.
fn start_round(
    terms: RefineTerms,
    work: &mut [f64],
    ints: &mut [u32],
    s: RefineState,
) -> Result<Pause, Refusal>
    requires { ReadyRound terms work.old ints.old s }
    ensures stands { (j : Job) (b : Best) (t : Trained) → MatchesRound j terms.entry
        → AtRound j b t s work.old ints.old
        → Pausing j t.events work.new ints.new result }
    ensures round { InSameRound s result }
{
    let profile = terms.given.profile;
    let n = profile.codebook_size as usize;
    let k = profile.block_dim as usize;
    let count = profile.training_samples as usize;
    lloyd_round::begin_round(terms.samples, work, ints, n, k, count);
    let empty = lloyd_update::count_empty(&ints[..n]);
    if profile.empty_cell_policy == EmptyCellPolicy::FailClosed && 0 < empty {
        return Err(Refusal::EmptyCells(empty as u64));
    }
    lloyd_refine::repair_on(terms, work, ints, s)
}

// The rounds of a restart are over: the better codebook is kept, and then comes the next restart or the report.
fn next_restart(
    terms: RefineTerms,
    work: &mut [f64],
    ints: &mut [u32],
    s: RefineState,
) -> Result<Pause, Refusal>
    requires { ReadyEnd terms work.old ints.old s }
    ensures stands { (j : Job) (b : Best) (t : Trained) → Matches j terms.entry
        → AtRound j b t s work.old ints.old
        → Pausing j t.events work.new ints.new result }
    ensures next { (t : RefineState) → result ≡ Ok (Pause.RoundOver t) → (t.restart ≡ s.restart + 1)
        × (t.iteration ≡ 0) }
{
    let profile = terms.given.profile;
    let n = profile.codebook_size as usize;
    let k = profile.block_dim as usize;
    let kept = lloyd_refine::keep_better(terms.samples, work, n, k, s);
    let restart = s.restart + 1;
    let t = RefineState {
        restart,
        iteration: 0,
        ..kept
    };
    if restart == profile.lloyd_restarts {
        let report = lloyd_refine::report(profile, t);
        return Ok(Pause::At(RefineStep::Done(report)));
    }
    lloyd_restart::start_restart(terms.initial, terms.matrices, work, n, k, restart as usize);
    start_round(terms, work, ints, t)
}

// A round is over: its words are the codebook of the next one, or of the restart's end.
fn next_round(
    terms: RefineTerms,
    work: &mut [f64],
    ints: &mut [u32],
    s: RefineState,
) -> Result<Pause, Refusal>
    requires { ReadyOver terms work.old ints.old s }
    ensures stands { (j : Job) (events : List LloydRepairEvent) → Matches j terms.entry
        → Over j events work.old ints.old s
        → Pausing j events work.new ints.new result }
    ensures falls { (t : RefineState) → result ≡ Ok (Pause.RoundOver t)
        → rounds_left terms.entry.given.profile t < rounds_left terms.entry.given.profile s }
{
    let profile = terms.given.profile;
    let values = profile.codebook_size as usize * profile.block_dim as usize;
    lloyd_restart::copy_part(work, 2 * values, 0, values);
    let round = s.iteration + 1;
    let t = RefineState {
        iteration: round,
        next: 0,
        before: s.before + s.made,
        made: 0,
        ..s
    };
    if round < profile.lloyd_iterations {
        return start_round(terms, work, ints, t);
    }
    next_restart(terms, work, ints, t)
}

// Round after round, up to the next repair or the end.
fn advance(
    terms: RefineTerms,
    work: &mut [f64],
    ints: &mut [u32],
    p: Pause,
) -> Result<RefineStep, Refusal>
    requires { ReadyPause terms work.old ints.old p }
    ensures { (j : Job) (events : List LloydRepairEvent) → Matches j terms.entry
        → Pausing j events work.old ints.old (Ok p)
        → RefineProgress j events work.new ints.new result }
{
    let mut pause = p;
    // Kept: a loop over the states of a refinement, since each step is made from what the one before left.
    loop {
        match pause {
            Pause::RoundOver(state) => {
                pause = next_round(terms, work, ints, state)?;
            }
            Pause::At(step) => return Ok(step),
        }
    }
}

// Restart 0 and its round 0, where the initial codebook's error is this.
fn first_state(error: f64) -> RefineState
    ensures { result ≡ first_state error }
{
    RefineState {
        restart: 0,
        iteration: 0,
        next: 0,
        before: 0,
        made: 0,
        init_mse: error,
        best_mse: error,
        best_restart: None,
    }
}

// The first repair, once the checks are passed: restart 0 starts from the initial codebook, which is the best so far.
// What stands in the work beside its codebooks is for the next steps;
// where it is refused it is left for the end to zero.
pub fn start_refine(
    terms: RefineTerms,
    work: &mut [f64],
    ints: &mut [u32],
) -> Result<RefineStep, Refusal>
    requires { ReadyJob terms (length work.old) (length ints.old) }
    ensures { (j : Job) → Matches j terms.entry → refine_checks j ≡ completed tt
        → length work.old ≡ j.float_work → length ints.old ≡ j.integer_work
        → RefineProgress j [] work.new ints.new result }
{
    let profile = terms.given.profile;
    let n = profile.codebook_size as usize;
    let k = profile.block_dim as usize;
    lloyd_restart::copy_in(terms.initial, work, 0);
    lloyd_restart::copy_in(terms.initial, work, n * k);
    let codewords = Codewords {
        values: terms.initial,
        count: n,
        dim: k,
    };
    let error = lloyd_search::mean_error(codewords, terms.samples);
    let state = first_state(error);
    let p = start_round(terms, work, ints, state)?;
    advance(terms, work, ints, p)
}

// The refinement goes on after a repair that was made, whose event is written by now. What stands in the work beside
// its codebooks is for the next steps; where it is refused it is left for the end to zero.
pub fn next_refine(
    terms: RefineTerms,
    work: &mut [f64],
    ints: &mut [u32],
    made: RefineRepair,
) -> Result<RefineStep, Refusal>
    requires { ReadyRefine terms work.old ints.old made }
    ensures { (j : Job) (events : List LloydRepairEvent) → Matches j terms.entry
        → Going j events work.old ints.old made
        → RefineProgress j (events ++ (made.event ∷ [])) work.new ints.new result }
{
    let p = lloyd_refine::repair_on(terms, work, ints, made.state)?;
    advance(terms, work, ints, p)
}
