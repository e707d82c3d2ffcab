// The banks at their limits, run.
use bank::even::Even;
use bank::refusal::Refusal;
use bank::size::check_size;
use bank::{Bank, span_end};
use calendar::{Calendar, Outage};
use cooldown::{CoolDown, Schedule, check_cool_down};
use reserve::{HostReserve, Window, check_windows};
use std::process::Abort;

fn outage(core: u32, from: u32, to: u32) -> Outage {
    Outage { core, from, to }
}

fn window(from: u32, to: u32, count: u32) -> Window {
    Window { from, to, count }
}

fn schedule(period: u32, rest: u32, limit: u32) -> Schedule {
    Schedule {
        period,
        rest,
        limit,
    }
}

// The number with which an answer refuses.
fn refused(answer: Result<(), Refusal>) -> Option<u32> {
    answer.err().map(|why| why.number())
}

#[test]
fn each_size_is_checked_at_its_limits(rt: HostRuntime) {
    let sizes = [
        (1, 1, None),
        (4096, 64, None),
        (0, 1, Some(16)),
        (4097, 1, Some(16)),
        (1, 0, Some(16)),
        (1, 65, Some(16)),
        (u32::MAX, 64, Some(16)),
        (4096, u32::MAX, Some(16)),
    ];
    for (slots, top, number) in sizes {
        assert_eq!(rt; refused(check_size(slots, top)), number);
    }
}

#[test]
fn a_size_outside_its_limits_is_taken_as_the_nearest(rt: HostRuntime) {
    let sizes = [
        (0, 0, 1, 1),
        (4097, 65, 4096, 64),
        (u32::MAX, u32::MAX, 4096, 64),
        (17, 5, 17, 5),
    ];
    for (slots, top, length, levels) in sizes {
        let even = Even::new(slots, top);
        assert_eq!(rt; (even.slots(), even.top()), (length, levels));
        let calendar = Calendar::new(&[], slots, top);
        assert_eq!(rt; (calendar.slots(), calendar.top()), (length, levels));
    }
}

// A table with one window in use.
fn table_with(place: usize, window: Window) -> [Window; 8] {
    let mut windows = [Window::default(); 8];
    if place < 8 {
        windows[place] = window;
    }
    windows
}

#[test]
fn each_window_is_checked_at_its_limits(rt: HostRuntime) {
    let windows = [
        (0, window(4096, 4096, 64), None),
        (0, window(4097, 0, 0), Some(16)),
        (3, window(0, 4097, 0), Some(16)),
        (5, window(0, 0, 65), Some(16)),
        (7, window(u32::MAX, u32::MAX, u32::MAX), Some(16)),
    ];
    for (place, window, number) in windows {
        assert_eq!(rt; refused(check_windows(&table_with(place, window))), number);
    }
}

#[test]
fn a_window_outside_its_limits_is_taken_as_the_nearest(rt: HostRuntime) {
    let table = table_with(7, window(2, u32::MAX, u32::MAX));
    let pile = HostReserve::new(Even::new(4096, 64), table);
    assert_eq!(rt; pile.capacity(64, 1), 64);
    assert_eq!(rt; pile.capacity(64, 2), 0);
    assert_eq!(rt; pile.capacity(64, 4095), 0);
    assert_eq!(rt; (pile.mark_after(0), pile.mark_after(2)), (2, 4096));
}

#[test]
fn a_window_is_changed_by_its_place(rt: HostRuntime) {
    let mut pile = HostReserve::new(Even::new(8, 4), [Window::default(); 8]);
    assert_eq!(rt; (pile.capacity(4, 3), pile.mark_after(0)), (4, 8));
    assert_eq!(rt; pile.set_window(7, window(2, 5, 3)), Ok(()));
    assert_eq!(rt;
        (pile.capacity(4, 3), pile.mark_after(0), pile.mark_after(2)),
        (1, 2, 5)
    );
    assert_eq!(rt; pile.set_window(0, window(3, 4, 2)), Ok(()));
    assert_eq!(rt;
        (
            pile.capacity(4, 2),
            pile.capacity(4, 3),
            pile.capacity(4, 4),
        ),
        (1, 0, 1)
    );
    assert_eq!(rt; pile.set_window(7, Window::default()), Ok(()));
    assert_eq!(rt; (pile.capacity(4, 2), pile.capacity(4, 3)), (4, 2));
}

#[test]
fn a_bad_place_or_number_leaves_the_windows(rt: HostRuntime) {
    let mut pile = HostReserve::new(Even::new(8, 4), table_with(0, window(2, 5, 3)));
    let good = window(0, 8, 4);
    assert_eq!(rt; refused(pile.set_window(8, good)), Some(16));
    assert_eq!(rt; refused(pile.set_window(u32::MAX, good)), Some(16));
    assert_eq!(rt; refused(pile.set_window(0, window(4097, 8, 4))), Some(16));
    assert_eq!(rt; refused(pile.set_window(0, window(0, 4097, 4))), Some(16));
    assert_eq!(rt; refused(pile.set_window(0, window(0, 8, 65))), Some(16));
    assert_eq!(rt;
        (
            pile.capacity(4, 1),
            pile.capacity(4, 2),
            pile.capacity(4, 5),
        ),
        (4, 1, 4)
    );
    assert_eq!(rt;
        (pile.mark_after(0), pile.mark_after(2), pile.mark_after(5)),
        (2, 5, 8)
    );
}

#[test]
fn degenerate_outages_mark_and_take_nothing_out(rt: HostRuntime) {
    let rows = [
        outage(0, 3, 3),
        outage(1, 5, 2),
        outage(9, 1, 6),
        outage(64, 0, 8),
        outage(u32::MAX, 7, u32::MAX),
        outage(2, u32::MAX, u32::MAX),
    ];
    let calendar = Calendar::new(&rows, 8, 4);
    let mut slot = 0;
    for mark in [1, 2, 3, 5, 6, 7, 8] {
        assert_eq!(rt; calendar.capacity(4, slot), 4);
        assert_eq!(rt; calendar.core(4, slot, 3), Some(3));
        slot = span_end(&calendar, slot);
        assert_eq!(rt; slot, mark);
    }
}

#[test]
fn only_the_first_64_rows_are_read(rt: HostRuntime) {
    let mut rows = [outage(0, 0, 2); 66];
    rows[63] = outage(1, 3, 4);
    rows[64] = outage(2, 5, 6);
    rows[65] = outage(3, 0, 8);
    let calendar = Calendar::new(&rows, 8, 4);
    assert_eq!(rt;
        (
            calendar.capacity(4, 0),
            calendar.capacity(4, 3),
            calendar.capacity(4, 5),
        ),
        (3, 3, 4)
    );
    assert_eq!(rt;
        (
            calendar.mark_after(0),
            calendar.mark_after(2),
            calendar.mark_after(3),
            calendar.mark_after(4),
        ),
        (2, 3, 4, 8)
    );
}

#[test]
fn each_cool_down_is_checked_at_its_limits(rt: HostRuntime) {
    let schedules = [
        (schedule(1, 0, 0), None),
        (schedule(4096, 4096, 64), None),
        (schedule(0, 0, 0), Some(16)),
        (schedule(4097, 0, 0), Some(16)),
        (schedule(1, 4097, 0), Some(16)),
        (schedule(1, 0, 65), Some(16)),
        (schedule(u32::MAX, u32::MAX, u32::MAX), Some(16)),
    ];
    for (schedule, number) in schedules {
        assert_eq!(rt; refused(check_cool_down(schedule)), number);
    }
}

#[test]
fn a_rest_of_none_of_the_period_or_of_more(rt: HostRuntime) {
    let none = CoolDown::new(Even::new(9, 4), schedule(4, 0, 1));
    let all = CoolDown::new(Even::new(9, 4), schedule(4, 4, 1));
    let more = CoolDown::new(Even::new(9, 4), schedule(4, 5, 1));
    let clamped = CoolDown::new(Even::new(9, 64), schedule(0, u32::MAX, u32::MAX));
    for slot in 0..9u32 {
        assert_eq!(rt;
            (
                none.capacity(4, slot),
                all.capacity(4, slot),
                more.capacity(4, slot),
            ),
            (4, 1, 1)
        );
        assert_eq!(rt;
            (
                none.mark_after(slot),
                all.mark_after(slot),
                more.mark_after(slot),
            ),
            (9, 9, 9)
        );
        assert_eq!(rt;
            (clamped.capacity(64, slot), clamped.mark_after(slot)),
            (64, 9)
        );
    }
    let one = CoolDown::new(Even::new(9, 4), schedule(4, 1, 1));
    assert_eq!(rt;
        (
            one.mark_after(0),
            one.mark_after(3),
            one.mark_after(4),
            one.mark_after(7),
            one.mark_after(8),
        ),
        (3, 4, 7, 8, 9)
    );
}

// A pile of all layers.
fn pile(rows: &[Outage]) -> CoolDown<HostReserve<Calendar<'_>>> {
    let calendar = Calendar::new(rows, 20, 6);
    let reserve = HostReserve::new(calendar, table_with(3, window(4, 9, 2)));
    CoolDown::new(reserve, schedule(5, 2, 3))
}

// Compares the levels 0 to 64 of one slot, asked at once and one by one.
fn compare_levels<B: Bank>(rt: &impl Abort, cores: &B, slot: u32) {
    for (level, capacity) in (0..65u32).zip(cores.capacities(slot)) {
        assert_eq!(rt; capacity, cores.capacity(level, slot));
    }
}

#[test]
fn all_levels_at_once_are_the_levels_one_by_one(rt: HostRuntime) {
    let rows = [outage(1, 2, 11), outage(4, 6, 17)];
    let pile = pile(&rows);
    for slot in 0..22u32 {
        compare_levels(&rt, &pile, slot);
        compare_levels(&rt, &Even::new(20, 6), slot);
    }
}

#[test]
fn questions_past_the_ends_are_answered(rt: HostRuntime) {
    let rows = [outage(1, 2, 11)];
    let pile = pile(&rows);
    for (level, slot) in [(0, 0), (7, 0), (u32::MAX, 0), (6, 20), (6, u32::MAX)] {
        assert_eq!(rt; pile.capacity(level, slot), 0);
        assert_eq!(rt; pile.core(level, slot, 0), None);
    }
    assert_eq!(rt;
        (
            pile.core(6, 0, 5),
            pile.core(6, 0, 6),
            pile.core(6, 0, u32::MAX),
        ),
        (Some(5), None, None)
    );
    assert_eq!(rt;
        (pile.core(6, 2, 1), pile.core(6, 2, 4)),
        (Some(2), Some(5))
    );
    assert_eq!(rt;
        (
            pile.mark_after(19),
            pile.mark_after(20),
            pile.mark_after(u32::MAX),
        ),
        (20, 20, 20)
    );
}

#[test]
fn the_examples_answer(rt: HostRuntime) {
    assert_eq!(rt;
        crate::worked_examples(),
        [[2, 2, 2], [1, 0, 1], [3, 1, 2], [2, 1, 2]]
    );
}

#[test]
fn refusals_are_numbered_from_1_to_18(rt: HostRuntime) {
    let all = [
        Refusal::SlotOpen,
        Refusal::TicketOutOfLimits,
        Refusal::BadDeadline,
        Refusal::NumberInUse,
        Refusal::TooManyJobs,
        Refusal::TooManySpans,
        Refusal::NoPlan,
        Refusal::ListTooShort,
        Refusal::TooFewCores,
        Refusal::NoSuchJob,
        Refusal::PastLastSlot,
        Refusal::WrongSlip,
        Refusal::NoSuchTicket,
        Refusal::TextTooLong,
        Refusal::NotInFormat,
        Refusal::OutOfLimits,
        Refusal::CountAboveLimit,
        Refusal::OutputTooShort,
    ];
    for (number, refusal) in (1..19u32).zip(all) {
        assert_eq!(rt; refusal.number(), number);
    }
}
