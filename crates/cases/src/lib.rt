// Worked examples of each kind of bank.
#![tactic(auto)]

ghost use Rattle.std.specs.Prelude.{◌≡◌, [], ◌∷◌};
ghost use Rattle.cases.specs.Examples.{BankExamples, capacities_in};

use bank::Bank;
use bank::even::Even;
use calendar::{Calendar, Outage};
use cooldown::{CoolDown, Schedule};
use reserve::{HostReserve, Window};

#[cfg(test)]
mod tests;

// The capacities at one level in each of three slots.
fn capacities_in<B: Bank>(bank: &B, level: u32, slots: [u32; 3]) -> [u32; 3]
    ensures { result ≡ capacities_in (B.Bank.means bank.now) level slots }
{
    slots.map(|slot| bank.capacity(level, slot))
}

// The capacities of the worked examples, asked of the banks themselves: of the even bank, of the bank with one outage, of
// that with two windows and of that with a cool-down. The contract has the examples too.
pub fn worked_examples() -> [[u32; 3]; 4]
    ensures examples { BankExamples }
    ensures answers { result ≡ (2 ∷ 2 ∷ 2 ∷ []) ∷ (1 ∷ 0 ∷ 1 ∷ []) ∷ (3 ∷ 1 ∷ 2 ∷ []) ∷ (2 ∷ 1 ∷ 2 ∷ []) ∷ [] }
{
    examples_hold();
    [
        even_bank(),
        one_outage(),
        two_windows(),
        every_fourth_slot(),
    ]
}

// The examples hold of the definitions.
fn examples_hold()
    ensures { BankExamples }
{}

// Three cores, at level 2 in slots 0, 1 and 5.
fn even_bank() -> [u32; 3]
    ensures { result ≡ 2 ∷ 2 ∷ 2 ∷ [] }
{
    capacities_in(&Even::new(6, 3), 2, [0, 1, 5])
}

// Core 0 of three out in slots 2 and 3, at level 1 in slots 1, 2 and 4.
fn one_outage() -> [u32; 3]
    ensures { result ≡ 1 ∷ 0 ∷ 1 ∷ [] }
{
    let rows = [Outage {
        core: 0,
        from: 2,
        to: 4,
    }];
    capacities_in(&Calendar::new(&rows, 6, 3), 1, [1, 2, 4])
}

// One core of four withheld in slots 0 to 3 and two in slots 2 to 5, at level 4 in slots 1, 2 and 4.
fn two_windows() -> [u32; 3]
    ensures { result ≡ 3 ∷ 1 ∷ 2 ∷ [] }
{
    let mut windows = [Window::default(); 8];
    windows[0] = Window {
        from: 0,
        to: 4,
        count: 1,
    };
    windows[1] = Window {
        from: 2,
        to: 6,
        count: 2,
    };
    let pile = HostReserve::new(Even::new(6, 4), windows);
    capacities_in(&pile, 4, [1, 2, 4])
}

// Two cores, but one in the last of every four slots, at level 2 in slots 2, 3 and 4.
fn every_fourth_slot() -> [u32; 3]
    ensures { result ≡ 2 ∷ 1 ∷ 2 ∷ [] }
{
    let schedule = Schedule {
        period: 4,
        rest: 1,
        limit: 1,
    };
    let pile = CoolDown::new(Even::new(6, 2), schedule);
    capacities_in(&pile, 2, [2, 3, 4])
}
