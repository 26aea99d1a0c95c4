// The update of lloyd.rs as it is called: the steps of `lloyd_update`,
// with the event of each repair written to a lent row of slots.
#![tactic(auto)]

ghost use Rattle.std.specs.Prelude.{◌≡◌, [], length};
ghost use Rattle.error.specs.Numbers.{completed, outcome, and_then};
ghost use Rattle.ieee.specs.Sum.{plus_zero};
ghost use Rattle.lloyd_update.specs.Alone.{update_alone, codebook_after, work_after, slots_after};
ghost use Rattle.lloyd_update.specs.Progress.{call_of, UpdateProgress};

use error::Refusal;
use lloyd_events::LloydRepairEvent;
use lloyd_update::{Step, UpdateTerms};

// `begin_update`, of a codebook that is held to be written at the end.
fn begin(
    codebook: &mut [f64],
    work: &mut [f64],
    counts: &mut [u32],
    slots: usize,
    t: UpdateTerms<'_>,
) -> Step
    ensures codebook { codebook.new ≡ codebook.old }
    ensures progress { UpdateProgress
        (call_of t.entry codebook.old (length work.old) (length counts.old) slots)
        [] work.new counts.new result }
    ensures early { (x : Refusal) → result ≡ Step.Refused x →
        (work.new ≡ work.old) × (counts.new ≡ counts.old) }
{
    lloyd_update::begin_update(&*codebook, work, counts, slots, t)
}

// One update of a codebook: each cell's mean, then the repairs
// of the empty cells, whose events stand in the first slots.
pub fn update_centroids(
    codebook: &mut [f64],
    work: &mut [f64],
    counts: &mut [u32],
    events: &mut [LloydRepairEvent],
    t: UpdateTerms<'_>,
) -> Result<u32, Refusal>
    ensures { let c = call_of t.entry codebook.old
        (length work.old) (length counts.old) (length events.old) in
        (outcome result ≡ and_then (update_alone c) (λ u. completed (length u.events)))
        × (codebook.new ≡ codebook_after c)
        × (work.new ≡ work_after plus_zero c work.old)
        × (counts.new ≡ work_after 0 c counts.old)
        × (events.new ≡ slots_after c events.old) }
{
    let slots = events.len();
    let mut s = begin(codebook, work, counts, slots, t);
    let mut used = 0;
    // Kept: a loop over the states: between two steps it writes an event, and a closure for that would hold the slots.
    let answer = loop {
        match s {
            Step::Refused(refusal) => return Err(refusal),
            Step::Made(repair) => {
                lloyd_events::put_event(events, used, repair.event);
                used += 1;
                s = lloyd_update::next_repair(work, counts, slots, used, t, repair);
            }
            Step::Stopped(answer) => break answer,
        }
    };
    if answer.is_err() {
        lloyd_events::zero_events(events);
    }
    lloyd_update::finish_update(codebook, work, counts, answer)
}
