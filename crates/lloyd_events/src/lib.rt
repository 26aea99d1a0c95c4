// The log of repairs: the event that each repair of an empty cell leaves, and the writes to a lent row of such slots.
// The functions are public only for the crates above.
#![tactic(auto)]

ghost use Rattle.std.specs.Prelude.{◌≡◌, ◌<◌, length, set, replicate};
ghost use Rattle.lloyd_events.specs.Events.{zero_event};

// One repair: the empty cell, the cell that it was split from, and the
// numbers of the split. Laid out as C has it, for callers in other languages.
#[repr(C)]
#[derive(Clone, Copy, Default)]
pub struct LloydRepairEvent {
    pub restart: u32,
    pub iteration: u32,
    pub empty_cell: u32,
    pub donor_cell: u32,
    pub donor_count_before: u32,
    pub donor_distortion: f64,
    pub residual_norm: f64,
    pub split_epsilon: f64,
}

// The most slots that can be lent.
pub const MAX_EVENT_SLOTS: usize = 1_048_576;

// The event whose members are all zero.
pub fn zero_event() -> LloydRepairEvent
    ensures { result ≡ zero_event }
{
    LloydRepairEvent::default()
}

// Writes the slot `at`.
pub fn put_event(slots: &mut [LloydRepairEvent], at: usize, e: LloydRepairEvent)
    requires { at < length slots.old }
    ensures { slots.new ≡ set slots.old at e }
{
    slots[at] = e;
}

// Zeroes every slot.
pub fn zero_events(slots: &mut [LloydRepairEvent])
    ensures { slots.new ≡ replicate (length slots.old) zero_event }
{
    slots.fill(zero_event());
}
