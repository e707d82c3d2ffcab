// The even bank: every core is always usable.
ghost use Rattle.std.specs.Prelude.{◌≡◌};
ghost use Rattle.bank.specs.Even.{even};
ghost use Rattle.bank.specs.Laws.Evens.{even_rules};
ghost use Rattle.bank.specs.Limits.{nearest};
ghost use Rattle.bank.specs.Meaning.{capacities_at};

use crate::Bank;
use crate::size::Size;
use std::array;

#[derive(Clone, Copy)]
pub struct Even {
    size: Size,
}

impl Even {
    // A number outside its limits is taken as the nearest limit.
    pub fn new(slots: u32, top: u32) -> Even
        ensures { ⟦<Even as Bank>⟧.means result ≡ even (nearest 1 4096 slots) (nearest 1 64 top) }
    {
        Even {
            size: Size::new(slots, top),
        }
    }

    // The capacities at the levels 0 to 64 in a slot; apart, as its proof is written by hand.
    fn each_level(&self, slot: u32) -> [u32; 65]
        ensures { result ≡ capacities_at (⟦<Even as Bank>⟧.means self.now) slot }
    {
        array::from_fn(|level| self.capacity(level as u32, slot))
    }
}

impl Bank for Even {
    ghost means = { λ b. even b.size.slots b.size.top };

    ghost rules = { λ b. even_rules b.size.slots b.size.top b.size.slots_fit b.size.top_fit };

    fn slots(&self) -> u32 {
        self.size.slots
    }

    fn top(&self) -> u32 {
        self.size.top
    }

    fn capacity(&self, level: u32, slot: u32) -> u32 {
        if self.size.has(level, slot) { level } else { 0 }
    }

    fn capacities(&self, slot: u32) -> [u32; 65] {
        self.each_level(slot)
    }

    fn core(&self, level: u32, slot: u32, lane: u32) -> Option<u32> {
        (lane < self.capacity(level, slot)).then_some(lane)
    }

    // No slot is marked.
    #[tactic(auto, using(crate::proofs::Firsts::first_never))]
    fn mark_after(&self, _slot: u32) -> u32 {
        self.slots()
    }
}
