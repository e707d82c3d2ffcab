// The banks for a benchmark program in another language: many questions by one call.
#![tactic(auto)]

ghost use Rattle.std.specs.Prelude.{◌≡◌, ℕ, ◌<◌};
ghost use Rattle.bank.specs.Meaning.{mark_after};
ghost use Rattle.bench_banks.specs.Bench.{Answers, core_or_none, eight_windows, full_pile};

use bank::Bank;
use calendar::{Calendar, Outage};
use cooldown::{CoolDown, Schedule};
use reserve::{HostReserve, Window};

// What a list for C holds for a lane that has no core, since it has no place for an Option.
const NO_CORE: u32 = 64;

// The pile of layers that is asked.
type FullPile<'a> = CoolDown<HostReserve<Calendar<'a>>>;

// Each exported function is a shell over a private one of the same contract, so that a wrong argument in it fails by its
// own contract. (rows, slot, answers) stand in each by the C interface, where a list is all that holds the answers.

// The capacities at the levels 0 to 64 in a slot, one question after another.
#[unsafe(no_mangle)]
pub extern "C" fn levels_one_by_one(rows: &[Outage], slot: u32, answers: &mut [u32])
    ensures { Answers (λ k. (full_pile rows.now).capacity k slot) 65 answers.old answers.new }
{
    pile_levels_each(rows, slot, answers);
}

// The same by one question.
#[unsafe(no_mangle)]
pub extern "C" fn levels_at_once(rows: &[Outage], slot: u32, answers: &mut [u32])
    ensures { Answers (λ k. (full_pile rows.now).capacity k slot) 65 answers.old answers.new }
{
    pile_levels_all(rows, slot, answers);
}

// The cores of the lanes 0 to 63 at the top level in a slot, 64 for a lane that has none.
#[unsafe(no_mangle)]
pub extern "C" fn lane_cores(rows: &[Outage], slot: u32, answers: &mut [u32])
    ensures { Answers (core_or_none (full_pile rows.now) slot) 64 answers.old answers.new }
{
    pile_lanes(rows, slot, answers);
}

// The first mark after a slot.
#[unsafe(no_mangle)]
pub extern "C" fn next_mark(rows: &[Outage], slot: u32) -> u32
    ensures { result ≡ mark_after (full_pile rows.now) slot }
{
    pile_mark(rows, slot)
}

// The capacity at each level of the pile, one question after another.
fn pile_levels_each(rows: &[Outage], slot: u32, answers: &mut [u32])
    ensures { Answers (λ k. (full_pile rows.now).capacity k slot) 65 answers.old answers.new }
{
    let pile = full_pile(rows);
    put_answers(answers, 65, |level| pile.capacity(level, slot));
}

// The same by one question.
fn pile_levels_all(rows: &[Outage], slot: u32, answers: &mut [u32])
    ensures { Answers (λ k. (full_pile rows.now).capacity k slot) 65 answers.old answers.new }
{
    let levels = full_pile(rows).capacities(slot);
    put_answers(answers, 65, |level| levels[level as usize]);
}

// The core of each lane of the pile.
fn pile_lanes(rows: &[Outage], slot: u32, answers: &mut [u32])
    ensures { Answers (core_or_none (full_pile rows.now) slot) 64 answers.old answers.new }
{
    let pile = full_pile(rows);
    let core_of = |lane| pile.core(64, slot, lane).unwrap_or(NO_CORE);
    put_answers(answers, 64, core_of);
}

// The first mark of the pile after a slot.
fn pile_mark(rows: &[Outage], slot: u32) -> u32
    ensures { result ≡ mark_after (full_pile rows.now) slot }
{
    full_pile(rows).mark_after(slot)
}

// Writes what `ask` answers to each number below `count` at that place of the list, as far as the list goes.
fn put_answers<F: Fn(u32) -> u32>(answers: &mut [u32], count: u32, ask: F)
    requires { (k : ℕ) → k < count → F.pre ask k }
    ensures { (f : ℕ → ℕ) → ((k r : ℕ) → k < count → F.post ask k r → r ≡ f k) → Answers f count answers.old answers.new }
{
    // A slice and its index: a loop over zip(0..count) or take(count) shows no list of what is written, as the proof needs.
    let asked = answers.len().min(count as usize);
    for (number, answer) in answers[..asked].iter_mut().enumerate() {
        *answer = ask(number as u32);
    }
}

// Eight windows that overlap here and there.
fn eight_windows() -> [Window; 8]
    ensures { result ≡ eight_windows }
{
    let rows = [
        (0, 512, 1),
        (256, 1024, 2),
        (900, 1800, 3),
        (1500, 1600, 8),
        (2000, 2500, 5),
        (2400, 3000, 4),
        (3100, 3900, 2),
        (3500, 4096, 1),
    ];
    rows.map(|(from, to, count)| Window { from, to, count })
}

// 4,096 slots and 64 cores, the caller's outages, eight windows, and at most 40 cores in the last 4 of every 16 slots.
fn full_pile(rows: &[Outage]) -> FullPile<'_>
    ensures { ⟦<FullPile<'static> as Bank>⟧.means result ≡ full_pile rows.now }
{
    let calendar = Calendar::new(rows, 4096, 64);
    let reserve = HostReserve::new(calendar, eight_windows());
    let schedule = Schedule {
        period: 16,
        rest: 4,
        limit: 40,
    };
    CoolDown::new(reserve, schedule)
}
