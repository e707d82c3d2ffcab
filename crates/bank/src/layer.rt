// Layers over a bank.
ghost use Rattle.std.specs.Prelude.{◌≡◌, ℕ, ◌+◌, ◌≤◌, Bool, false};
ghost use Rattle.bank.specs.Reduction.{reduced};
ghost use Rattle.bank.specs.First.{first_above};
ghost use Rattle.bank.specs.Layer.{layer, left_by};
ghost use Rattle.bank.specs.Laws.Layers.{layered};

use crate::Bank;
use crate::reduction::Reduction;

// A layer over a bank: it has the slots and levels of the bank below, takes some of its usable cores away, leaves the
// lanes that remain their cores, and adds marks where what it leaves may change.
pub trait Layer {
    type Below: Bank;

    // The bank below.
    ghost beneath: { Self → Self.Below };

    // What is left in a slot of so many usable cores.
    ghost left: { Self → ℕ → ℕ → ℕ };

    // The slots at which that may differ from the slot before.
    ghost edge: { Self → ℕ → Bool };

    fn below(&self) -> &Self::Below
        ensures { result.now ≡ beneath self.now };

    // What the layer does to each capacity in a slot.
    fn reduction(&self, slot: u32) -> Reduction
        ensures { (n : ℕ) → reduced result n ≡ left self.now slot n };

    // The first edge above a slot and below a limit, else the limit.
    fn edge_after(&self, slot: u32, limit: u32) -> u32
        ensures { result ≡ first_above (edge self.now) limit slot };

    // A layer only takes cores away, of more it leaves no fewer, and between its edges it leaves as many.
    ghost takes: { (l : Self) (t n : ℕ) → left l t n ≤ n };

    ghost rises: { (l : Self) (t n m : ℕ) → n ≤ m → left l t n ≤ left l t m };

    ghost stays: { (l : Self) (t n : ℕ) → edge l (t + 1) ≡ false → left l (t + 1) n ≡ left l t n };
}

impl<L: Layer> Bank for L {
    ghost means = { λ l. layer (L.Below.means (L.beneath l)) (left_by (L.Below.means (L.beneath l)) (L.left l)) (L.edge l) };

    ghost rules = { λ l. layered (L.Below.means (L.beneath l)) (L.left l) (L.edge l) (L.Below.rules (L.beneath l)) (L.takes l) (L.rises l) (L.stays l) };

    fn slots(&self) -> u32 {
        self.below().slots()
    }

    fn top(&self) -> u32 {
        self.below().top()
    }

    fn capacity(&self, level: u32, slot: u32) -> u32 {
        let below = self.below().capacity(level, slot);
        self.reduction(slot).left(below)
    }

    #[tactic(auto, using(crate::proofs::Layers::layer_capacities))]
    fn capacities(&self, slot: u32) -> [u32; 65] {
        let below = self.below().capacities(slot);
        self.reduction(slot).each_left(below)
    }

    fn core(&self, level: u32, slot: u32, lane: u32) -> Option<u32> {
        if lane < self.capacity(level, slot) {
            self.below().core(level, slot, lane)
        } else {
            None
        }
    }

    #[tactic(auto, using(crate::proofs::Layers::layer_first))]
    fn mark_after(&self, slot: u32) -> u32 {
        self.below()
            .mark_after(slot)
            .min(self.edge_after(slot, self.slots()))
    }
}
