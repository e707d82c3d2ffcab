// Why a call is refused. There is one list for the whole planner, and each refusal has its number.
ghost use Rattle.std.specs.Prelude.{◌≡◌, if◌then◌else◌, Ok, Err};
ghost use Rattle.bank.specs.Refusals.{refusal_number};

#[derive(Clone, Copy, PartialEq, Eq, Debug)]
pub enum Refusal {
    // A slot is open.
    SlotOpen = 1,
    // A ticket's job number is not 1 to 9,999, its work not 1 to 262,144, or its bound not 1 to 64.
    TicketOutOfLimits = 2,
    // A ticket's deadline is at or below its arrival or the clock, or above the bank's number of slots.
    BadDeadline = 3,
    // A live job has this number.
    NumberInUse = 4,
    // 32 jobs are live.
    TooManyJobs = 5,
    // The plan would have more than 128 spans.
    TooManySpans = 6,
    // There is no rest plan at the top level.
    NoPlan = 7,
    // A list handed in is too short.
    ListTooShort = 8,
    // The capacity at the book's level is below the lanes in use.
    TooFewCores = 9,
    // No live job has this number.
    NoSuchJob = 10,
    // The clock is at or past the bank's number of slots.
    PastLastSlot = 11,
    // The slip's name or slot is not the book's, or no slot is open.
    WrongSlip = 12,
    // A script names a ticket that the sheet lacks.
    NoSuchTicket = 13,
    // A text is too long.
    TextTooLong = 14,
    // A byte or a line is not in the format.
    NotInFormat = 15,
    // A number is outside its limits.
    OutOfLimits = 16,
    // A section's count is above its limit.
    CountAboveLimit = 17,
    // The output is too short.
    OutputTooShort = 18,
}

impl Refusal {
    // The number of the refusal.
    pub fn number(self) -> u32
        ensures { result ≡ refusal_number self }
    {
        self as u32
    }

    // Refuses where a condition does not hold.
    pub fn unless(self, holds: bool) -> Result<(), Refusal>
        ensures { result ≡ (if holds then Ok tt else Err self) }
    {
        if holds { Ok(()) } else { Err(self) }
    }
}
