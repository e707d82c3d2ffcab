// The calendar bank: its cores are out of service by the rows of a table of the caller's.
#![tactic(auto)]

ghost use Rattle.std.specs.Prelude.{◌≡◌, ℕ, ◌<◌, ◌≤◌, false, take, IfSome, IfNone};
ghost use Rattle.calendar.specs.Calendar.{calendar, out, takes_out, usable_at};
ghost use Rattle.calendar.specs.Cores.{bit, usable};
ghost use Rattle.calendar.specs.Laws.Calendars.{calendar_rules};
ghost use Rattle.bank.specs.Limits.{in_bank, nearest};
ghost use Rattle.bank.specs.Meaning.{capacities_at};

use crate::word::CoresOut;
use bank::Bank;
use bank::interval::{Interval, Timed, first_edge};
use bank::size::Size;

mod word;

// A core that is out of service while from ≤ t < to. Any numbers are lawful.
#[repr(C)]
#[derive(Clone, Copy, PartialEq, Eq, Debug, Default)]
pub struct Outage {
    pub core: u32,
    pub from: u32,
    pub to: u32,
}

impl Timed for Outage {
    ghost interval_of = { λ o. record { from = o.from; to = o.to } };

    fn interval(&self) -> Interval {
        Interval {
            from: self.from,
            to: self.to,
        }
    }
}

impl Outage {
    // The bit of the row's core where the row takes it out in a slot, else no bit. Cores from 64 on have none.
    fn bit_at(&self, slot: u32) -> u64
        ensures { (c : ℕ) → c < 64 → bit result c ≡ takes_out slot c self.now }
    {
        if self.core < 64 && self.interval().covers(slot) {
            1 << self.core
        } else {
            0
        }
    }
}

// The cores below 64 that some row takes out in a slot.
fn cores_out(rows: &[Outage], slot: u32) -> CoresOut
    ensures { (c : ℕ) → c < 64 → bit result.word c ≡ out rows.now slot c }
{
    let mut word = 0;
    for o in rows {
        word |= o.bit_at(slot);
    }
    CoresOut { word }
}

#[derive(Clone, Copy)]
pub struct Calendar<'a> {
    rows: &'a [Outage],
    size: Size,
}

impl<'a> Calendar<'a> {
    // Reads the first 64 rows. A number outside its limits is taken as the nearest limit.
    pub fn new(rows: &'a [Outage], slots: u32, top: u32) -> Calendar<'a>
        ensures { ⟦<Calendar<'a> as Bank>⟧.means result ≡ calendar (take 64 rows.now) (nearest 1 4096 slots) (nearest 1 64 top) }
    {
        Calendar {
            rows: first_rows(rows),
            size: Size::new(slots, top),
        }
    }

    // The cores that are out of service, where the bank has the level and the slot.
    fn out_at(&self, level: u32, slot: u32) -> Option<CoresOut>
        ensures known { IfSome result (λ w. (k : ℕ) → k ≤ self.now.size.top → usable (bit w.word) k ≡ usable_at self.now.rows.now self.now.size.slots self.now.size.top k slot) }
        ensures level { IfSome result (λ w. level ≤ self.now.size.top) }
        ensures past { IfNone result (in_bank self.now.size.slots self.now.size.top level slot ≡ false) }
    {
        if self.size.has(level, slot) {
            Some(cores_out(self.rows, slot))
        } else {
            None
        }
    }

    // The counts of usable cores at the levels 0 to 64, from one pass over the rows; apart, as its proof is written by hand.
    fn counts(&self, slot: u32) -> [u32; 65]
        ensures { result ≡ capacities_at (⟦<Calendar<'a> as Bank>⟧.means self.now) slot }
    {
        match self.out_at(0, slot) {
            Some(out) => out.counts(self.size.top),
            None => [0; 65],
        }
    }
}

impl<'a> Bank for Calendar<'a> {
    ghost means = { λ b. calendar b.rows.now b.size.slots b.size.top };

    ghost rules = { λ b. calendar_rules b.rows.now b.size.slots b.size.top b.size.slots_fit b.size.top_fit };

    fn slots(&self) -> u32 {
        self.size.slots
    }

    fn top(&self) -> u32 {
        self.size.top
    }

    fn capacity(&self, level: u32, slot: u32) -> u32 {
        self.out_at(level, slot)
            .map_or(0, |out| out.usable_below(level))
    }

    fn capacities(&self, slot: u32) -> [u32; 65] {
        self.counts(slot)
    }

    fn core(&self, level: u32, slot: u32, lane: u32) -> Option<u32> {
        let out = self.out_at(level, slot)?;
        out.usable_core(level, lane)
    }

    #[tactic(auto, using(crate::proofs::Calendars::first_mark))]
    fn mark_after(&self, slot: u32) -> u32 {
        first_edge(self.rows, slot, self.size.slots)
    }
}

// The first 64 rows.
fn first_rows(rows: &[Outage]) -> &[Outage]
    ensures { result.now ≡ take 64 rows.now }
{
    let read = rows.len().min(64);
    &rows[0..read]
}
