// The host reserve: a layer that withholds cores of the bank below while its windows are in force.
#![tactic(auto)]

ghost use Rattle.std.specs.Prelude.{◌≡◌, ◌≤◌, false, map, if◌then◌else◌, Some, None};
ghost use Rattle.std.specs.List.{list_any};
ghost use Rattle.reserve.specs.Laws.Reserves.{left_below, left_rises, left_stays};
ghost use Rattle.bank.specs.Refusals.{refusal_of};
ghost use Rattle.reserve.specs.Reserve.{ReserveRules, clamped, held, left_of, reserve, settable, table_fits, window_edge, window_fits, with_window, withheld};

use crate::table::WindowTable;
use bank::Bank;
use bank::interval::{Interval, Timed, first_edge};
use bank::layer::Layer;
use bank::reduction::Reduction;
use bank::refusal::Refusal;
use bank::size::{MAX_LEVEL, MAX_SLOTS};

mod table;

// A window of the host reserve: while from ≤ t < to, the host keeps `count` cores for itself.
#[repr(C)]
#[derive(Clone, Copy, PartialEq, Eq, Debug, Default)]
pub struct Window {
    pub from: u32,
    pub to: u32,
    pub count: u32,
}

impl Timed for Window {
    ghost interval_of = { λ w. record { from = w.from; to = w.to } };

    fn interval(&self) -> Interval {
        Interval {
            from: self.from,
            to: self.to,
        }
    }
}

impl Window {
    // Whether each number is in its limits.
    fn fits(&self) -> bool
        ensures { result ≡ window_fits self.now }
    {
        self.from <= MAX_SLOTS && self.to <= MAX_SLOTS && self.count <= MAX_LEVEL
    }

    // The window with each number outside its limits taken as the nearest limit.
    fn clamped(&self) -> Window
        ensures { result ≡ clamped self.now }
    {
        Window {
            from: self.from.min(MAX_SLOTS),
            to: self.to.min(MAX_SLOTS),
            count: self.count.min(MAX_LEVEL),
        }
    }

    // The number of cores that the window withholds in a slot.
    fn held(&self, slot: u32) -> u32
        ensures { result ≡ held slot self.now }
    {
        if self.interval().covers(slot) {
            self.count
        } else {
            0
        }
    }
}

// Refuses windows with a slot above 4,096 or a count above 64.
pub fn check_windows(windows: &[Window; 8]) -> Result<(), Refusal>
    ensures { refusal_of result ≡ (if table_fits windows.now then None else Some 16) }
{
    Refusal::OutOfLimits.unless(all_fit(windows))
}

// Whether each number of each window is in its limits.
fn all_fit(windows: &[Window]) -> bool
    ensures { result ≡ table_fits windows.now }
{
    windows.iter().all(|w| w.fits())
}

impl WindowTable {
    fn new(windows: [Window; 8]) -> WindowTable
        ensures { result.rows ≡ map clamped windows }
    {
        WindowTable {
            rows: windows.map(|w| w.clamped()),
        }
    }

    // Changes the window at a place, from 0 to 7.
    fn set(&mut self, place: u32, window: Window) -> Result<(), Refusal>
        ensures answer { refusal_of result ≡ (if settable place window then None else Some 16) }
        ensures after { self.new.rows ≡ with_window self.old.rows place window }
        ensures refused { settable place window ≡ false → self.new ≡ self.old }
    {
        if place >= 8 || !window.fits() {
            return Err(Refusal::OutOfLimits);
        }
        self.rows[place as usize] = window;
        Ok(())
    }

    // The number of cores withheld in a slot: the sum over the eight windows.
    fn withheld(&self, slot: u32) -> u32
        ensures value { result ≡ withheld self.now.rows slot }
        ensures bound { result ≤ 512 }
    {
        let mut sum = 0;
        for w in &self.rows {
            sum += w.held(slot);
        }
        sum
    }
}

#[derive(Drop)]
pub struct HostReserve<B> {
    below: B,
    table: WindowTable,
}

impl<B: Bank> HostReserve<B> {
    // A number outside its limits is taken as the nearest limit. With any windows, over any bank that keeps the rules, a
    // reserve keeps them.
    pub fn new(below: B, windows: [Window; 8]) -> HostReserve<B>
        ensures below { result.below ≡ below }
        ensures windows { result.table.rows ≡ map clamped windows }
        ensures meaning { ⟦<HostReserve<B> as Bank>⟧.means result ≡ reserve (map clamped windows) (B.means below) }
        ensures rules { ReserveRules }
    {
        HostReserve {
            below,
            table: WindowTable::new(windows),
        }
    }

    // Changes the window at a place, from 0 to 7. A place above 7, a slot above 4,096 or a count above 64 is refused, and
    // then everything stays as it was.
    pub fn set_window(&mut self, place: u32, window: Window) -> Result<(), Refusal>
        ensures answer { refusal_of result ≡ (if settable place window then None else Some 16) }
        ensures windows { self.new.table.rows ≡ with_window self.old.table.rows place window }
        ensures below { self.new.below ≡ self.old.below }
        ensures meaning { ⟦<HostReserve<B> as Bank>⟧.means self.new ≡ reserve (with_window self.old.table.rows place window) (B.means self.old.below) }
        ensures refused { settable place window ≡ false → self.new ≡ self.old }
    {
        self.table.set(place, window)
    }
}

impl<B: Bank> Layer for HostReserve<B> {
    type Below = B;

    ghost beneath = { λ b. b.below };

    ghost left = { λ b. left_of b.table.rows };

    ghost edge = { λ b t. list_any (window_edge t) b.table.rows };

    ghost takes = { λ b. left_below b.table.rows };

    ghost rises = { λ b. left_rises b.table.rows };

    ghost stays = { λ b. left_stays b.table.rows };

    fn below(&self) -> &B {
        &self.below
    }

    fn reduction(&self, slot: u32) -> Reduction {
        Reduction::Less(self.table.withheld(slot))
    }

    fn edge_after(&self, slot: u32, limit: u32) -> u32 {
        first_edge(&self.table.rows, slot, limit)
    }
}
