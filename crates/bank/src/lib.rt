// Banks of parity cores: how many cores are usable at each level in each slot, and which.
#![tactic(auto)]

ghost use Rattle.std.specs.Prelude.{◌≡◌};
ghost use Rattle.bank.specs.Meaning.{Meaning, Rules, capacities_at, mark_after, Steady};

pub mod even;
pub mod interval;
pub mod layer;
pub mod reduction;
pub mod refusal;
pub mod size;
pub mod ticket;

// What every kind of bank answers, for any numbers. A slot is the unit of time, counted from 0. At level k the cores 0
// to k - 1 are powered. A lane is a place among the usable cores, counted from 0.
pub trait Bank {
    // What the bank means.
    ghost means: { Self → Meaning };

    // The number of slots, 1 to 4,096.
    fn slots(&self) -> u32
        ensures { result ≡ (means self.now).slots };

    // The highest level, 1 to 64.
    fn top(&self) -> u32
        ensures { result ≡ (means self.now).top };

    // The number of usable cores at a level in a slot: 0 above the top level, and at or past the number of slots.
    fn capacity(&self, level: u32, slot: u32) -> u32
        ensures { result ≡ (means self.now).capacity level slot };

    // The capacities at the levels 0 to 64 in a slot, asked at once.
    fn capacities(&self, slot: u32) -> [u32; 65]
        ensures { result ≡ capacities_at (means self.now) slot };

    // The core of a lane at a level in a slot: there is one for each lane below the capacity.
    fn core(&self, level: u32, slot: u32, lane: u32) -> Option<u32>
        ensures { result ≡ (means self.now).core level slot lane };

    // The first mark after a slot, or the number of slots.
    fn mark_after(&self, slot: u32) -> u32
        ensures { result ≡ mark_after (means self.now) slot };

    // Every bank keeps the rules.
    ghost rules: { (b : Self) → Rules (means b) };
}

// The end of the span that begins in a slot: the first mark after it, or the number of slots. Up to there every capacity
// and every core stays as it is.
pub fn span_end<B: Bank>(cores: &B, slot: u32) -> u32
    ensures first { result ≡ mark_after (B.Bank.means cores.now) slot }
    ensures steady { Steady (B.Bank.means cores.now) slot result }
{
    steady_to(cores, slot)
}

// The same, apart: its proof is written by hand, and a mistake in the call above is to fail by its own contract. (So it is
// wherever a public function only calls a private one with the same contract.)
fn steady_to<B: Bank>(cores: &B, slot: u32) -> u32
    ensures first { result ≡ mark_after (B.Bank.means cores.now) slot }
    ensures steady { Steady (B.Bank.means cores.now) slot result }
{
    cores.mark_after(slot)
}
