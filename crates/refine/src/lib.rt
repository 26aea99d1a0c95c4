// The refinement of lloyd.rs as it is called: the steps of `lloyd_steps`,
// with the event of each repair written to a lent row of slots.
#![tactic(auto)]

ghost use Rattle.std.specs.Prelude.{◌≡◌, ◌++◌, ◌*◌, length, drop};
ghost use Rattle.error.specs.Numbers.{completed, and_then, outcome};
ghost use Rattle.ieee.specs.Sum.{plus_zero};
ghost use Rattle.lloyd_round.specs.Round.{Holding};
ghost use Rattle.lloyd_refine.specs.Refine.{Job, Best, size_of, dim_of, refine_checks, refinement, codewords_after, work_after, slots_after};
ghost use Rattle.lloyd_refine.specs.Report.{report_of};
ghost use Rattle.lloyd_refine.specs.Standing.{job_of, Matches};
ghost use Rattle.lloyd_steps.specs.Steps.{ReadyJob};

use error::Refusal;
use lloyd_events::LloydRepairEvent;
use lloyd_refine::{LloydReport, RefineStep, RefineTerms};
use profile::GivenProfile;

// Refinement: from the initial codebook, and from its image under each matrix, rounds of nearest codewords and updates.
// The codebook of the least error is narrowed to the codewords, and the events of all repairs stand in the first slots.
pub fn refine_codebook(
    given: GivenProfile,
    initial: &[f64],
    samples: &[f64],
    matrices: &[f64],
    codewords: &mut [f32],
    work: &mut [f64],
    ints: &mut [u32],
    events: &mut [LloydRepairEvent],
) -> Result<LloydReport, Refusal>
    ensures { let g = given.entry in
        let j = job_of g.profile g.schema.now g.rotation_algorithm.now g.log2
        initial.now samples.now matrices.now (length codewords.old)
        (length work.old) (length ints.old) (length events.old) in
        (outcome result ≡ and_then (refinement j) (λ b. completed (report_of j b)))
        × (codewords.new ≡ codewords_after j codewords.old)
        × (work.new ≡ work_after plus_zero j work.old)
        × (ints.new ≡ work_after 0 j ints.old)
        × (events.new ≡ slots_after j events.old) }
{
    let terms = RefineTerms {
        given,
        initial,
        samples,
        matrices,
        slots: events.len(),
    };
    lloyd_refine::check_refine(terms, codewords.len(), work.len(), ints.len())?;
    let answer = write_repairs(terms, work, ints, events);
    lloyd_refine::finish_events(events, answer);
    lloyd_refine::finish_refine(codewords, work, ints, answer)
}

// The steps of a refinement that has passed its checks, up to its answer; the event of each repair is written.
fn write_repairs(
    terms: RefineTerms,
    work: &mut [f64],
    ints: &mut [u32],
    events: &mut [LloydRepairEvent],
) -> Result<LloydReport, Refusal>
    requires ready { ReadyJob terms (length work.old) (length ints.old) }
    requires slots { length events.old ≡ terms.slots }
    ensures { (j : Job) → Matches j terms.entry → refine_checks j ≡ completed tt
        → length work.old ≡ j.float_work → length ints.old ≡ j.integer_work
        → (outcome result ≡ and_then (refinement j) (λ b. completed (report_of j b)))
        × ((b : Best) → refinement j ≡ completed b
        → (events.new ≡ b.events ++ drop (length b.events) events.old)
        × Holding (size_of j) (dim_of j) (size_of j * dim_of j) b.codebook work.new) }
{
    let mut step = lloyd_steps::start_refine(terms, work, ints)?;
    let mut used = 0;
    // Kept: a loop over the steps: between two it writes an event, and a closure for that would hold the slots.
    loop {
        match step {
            RefineStep::Made(repair) => {
                lloyd_events::put_event(events, used, repair.event);
                used += 1;
                step = lloyd_steps::next_refine(terms, work, ints, repair)?;
            }
            RefineStep::Done(report) => return Ok(report),
        }
    }
}
