// How long a bank lasts, and how many cores it has.
ghost use Rattle.std.specs.Prelude.{◌≡◌, ◌≤◌, ◌&&◌, if◌then◌else◌, Some, None};
ghost use Rattle.bank.specs.Limits.{in_bank, in_limits, nearest};
ghost use Rattle.bank.specs.Refusals.{refusal_of};

use crate::refusal::Refusal;

// The most slots that a bank has.
pub const MAX_SLOTS: u32 = 4096;

// The most cores that a bank has, which is the highest top level.
pub const MAX_LEVEL: u32 = 64;

// The number of slots and the top level of a bank.
#[derive(Clone, Copy)]
pub struct Size {
    pub slots: u32,
    pub top: u32,
    ghost slots_fit: { (1 ≤ slots) × (slots ≤ 4096) },
    ghost top_fit: { (1 ≤ top) × (top ≤ 64) },
}

impl Size {
    // A number outside its limits is taken as the nearest limit. (Makings take the two numbers as they are: `Even::new(6, 3)`
    // is plainer than the same through a record of any two numbers.)
    pub fn new(slots: u32, top: u32) -> Size
        ensures slots { result.slots ≡ nearest 1 4096 slots }
        ensures top { result.top ≡ nearest 1 64 top }
    {
        Size {
            slots: slots.clamp(1, MAX_SLOTS),
            top: top.clamp(1, MAX_LEVEL),
        }
    }

    // Whether the bank has the level and the slot.
    pub fn has(&self, level: u32, slot: u32) -> bool
        ensures { result ≡ in_bank self.now.slots self.now.top level slot }
    {
        level <= self.top && slot < self.slots
    }
}

// Refuses a number of slots outside 1 to 4,096, or a top level outside 1 to 64, for an even bank or a calendar.
pub fn check_size(slots: u32, top: u32) -> Result<(), Refusal>
    ensures { refusal_of result ≡ (if in_limits 1 4096 slots && in_limits 1 64 top then None else Some 16) }
{
    let fits = (1..=MAX_SLOTS).contains(&slots) && (1..=MAX_LEVEL).contains(&top);
    Refusal::OutOfLimits.unless(fits)
}
