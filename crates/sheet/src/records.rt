// The records of a sheet, and the limits of their fields.
ghost use Rattle.sheet.specs.Records.{extent_limits, make_extent, extent_numbers, outage_limits, make_outage, outage_numbers, window_limits, make_window, window_numbers, cool_down_limits, make_cool_down, cool_down_numbers, ticket_limits, make_ticket, ticket_numbers};
ghost use Rattle.sheet.specs.Format.{extent_format, extent_sized, outage_format, outage_sized, window_format, window_sized, cool_down_format, cool_down_sized, ticket_format, ticket_sized};
ghost use Rattle.std.proofs.Common.{rules};

use crate::rows::Row;
use bank::refusal::Refusal;
use bank::ticket::Ticket;
use calendar::Outage;
use cooldown::Schedule;
use reserve::Window;
use text::limits::Limits;

// The number of slots and the top level.
#[derive(Clone, Copy, PartialEq, Eq, Debug, Default)]
pub struct Extent {
    pub slots: u32,
    pub top: u32,
}

// The limits of fields, each from its least number to its greatest. A macro, since such a const cannot call a function.
macro_rules! limits {
    ($($low:literal ..= $high:literal),*) => {
        [$(Limits { low: $low, high: $high, refusal: Refusal::OutOfLimits }),*]
    };
}

impl Row<2> for Extent {
    ghost LIMITS = { extent_limits };

    ghost MOST = { 1 };

    ghost make = { make_extent };

    ghost numbers = { extent_numbers };

    ghost few = { Prim.search rules };

    ghost fits = { Prim.search rules };

    ghost format = { extent_format };

    ghost sized = { extent_sized };

    const LIMITS: [Limits; 2] = limits![1..=4096, 1..=64];

    const MOST: u32 = 1;

    fn from_numbers(fields: &[u32; 2]) -> Extent {
        let [slots, top] = *fields;
        Extent { slots, top }
    }

    fn numbers(&self) -> [u32; 2] {
        [self.slots, self.top]
    }
}

impl Row<3> for Outage {
    ghost LIMITS = { outage_limits };

    ghost MOST = { 64 };

    ghost make = { make_outage };

    ghost numbers = { outage_numbers };

    ghost few = { Prim.search rules };

    ghost fits = { Prim.search rules };

    ghost format = { outage_format };

    ghost sized = { outage_sized };

    const LIMITS: [Limits; 3] = limits![0..=63, 0..=4095, 1..=4096];

    const MOST: u32 = 64;

    fn from_numbers(fields: &[u32; 3]) -> Outage {
        let [core, from, to] = *fields;
        Outage { core, from, to }
    }

    fn numbers(&self) -> [u32; 3] {
        [self.core, self.from, self.to]
    }
}

impl Row<3> for Window {
    ghost LIMITS = { window_limits };

    ghost MOST = { 8 };

    ghost make = { make_window };

    ghost numbers = { window_numbers };

    ghost few = { Prim.search rules };

    ghost fits = { Prim.search rules };

    ghost format = { window_format };

    ghost sized = { window_sized };

    const LIMITS: [Limits; 3] = limits![0..=4095, 1..=4096, 1..=64];

    const MOST: u32 = 8;

    fn from_numbers(fields: &[u32; 3]) -> Window {
        let [from, to, count] = *fields;
        Window { from, to, count }
    }

    fn numbers(&self) -> [u32; 3] {
        [self.from, self.to, self.count]
    }
}

impl Row<3> for Schedule {
    ghost LIMITS = { cool_down_limits };

    ghost MOST = { 1 };

    ghost make = { make_cool_down };

    ghost numbers = { cool_down_numbers };

    ghost few = { Prim.search rules };

    ghost fits = { Prim.search rules };

    ghost format = { cool_down_format };

    ghost sized = { cool_down_sized };

    const LIMITS: [Limits; 3] = limits![1..=4096, 0..=4096, 0..=64];

    const MOST: u32 = 1;

    fn from_numbers(fields: &[u32; 3]) -> Schedule {
        let [period, rest, limit] = *fields;
        Schedule {
            period,
            rest,
            limit,
        }
    }

    fn numbers(&self) -> [u32; 3] {
        [self.period, self.rest, self.limit]
    }
}

impl Row<5> for Ticket {
    ghost LIMITS = { ticket_limits };

    ghost MOST = { 64 };

    ghost make = { make_ticket };

    ghost numbers = { ticket_numbers };

    ghost few = { Prim.search rules };

    ghost fits = { Prim.search rules };

    ghost format = { ticket_format };

    ghost sized = { ticket_sized };

    const LIMITS: [Limits; 5] = limits![1..=9999, 0..=4095, 1..=4096, 1..=262144, 1..=64];

    const MOST: u32 = 64;

    fn from_numbers(fields: &[u32; 5]) -> Ticket {
        let [number, arrival, deadline, work, bound] = *fields;
        Ticket {
            number,
            arrival,
            deadline,
            work,
            bound,
        }
    }

    fn numbers(&self) -> [u32; 5] {
        [
            self.number,
            self.arrival,
            self.deadline,
            self.work,
            self.bound,
        ]
    }
}
