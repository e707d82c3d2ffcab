// What the map tells of one span of slots.
ghost use Rattle.std.specs.Prelude.{◌≡◌, ◌-◌};
ghost use Rattle.std.specs.Iterator.{at_most};
ghost use Rattle.bankmap.specs.Survey.{core_states, FewestLevel, with_state};
ghost use Rattle.bankmap.specs.Spans.{IsSpan, NextSpan};

use bank::{Bank, span_end};

// How a core stands in a slot: usable, kept back by a layer, or out of service.
#[derive(Clone, Copy)]
pub(crate) enum CoreState {
    Usable,
    Withheld,
    Out,
}

// A span of slots, from ≤ t < to, in which nothing changes.
#[derive(Clone, Copy)]
pub(crate) struct Span {
    pub from: u32,
    pub to: u32,
    pub capacity: u32,
    pub level: u32,
    // The highest level: the pile has so many cores.
    pub top: u32,
    // By core. An array and no ArrayVec: the contract tells of all 64, a span is Copy, and only the map ends at `top`.
    pub cores: [CoreState; 64],
}

// The spans of a pile of layers over a bank, from mark to mark.
#[derive(Drop)]
pub(crate) struct Spans<'a, A, B> {
    bottom: &'a A,
    pile: &'a B,
    // Where the next span begins.
    from: u32,
}

impl<'a, A: Bank, B: Bank> Spans<'a, A, B> {
    pub(crate) fn new(bottom: &'a A, pile: &'a B) -> Spans<'a, A, B>
        ensures bottom { result.bottom.now ≡ bottom.now }
        ensures pile { result.pile.now ≡ pile.now }
        ensures first { result.from ≡ 0 }
    {
        Spans {
            bottom,
            pile,
            from: 0,
        }
    }

    // The next span.
    fn span(&self) -> Span
        ensures { IsSpan (A.Bank.means self.now.bottom.now) (B.Bank.means self.now.pile.now) self.now.from result }
    {
        Span {
            from: self.from,
            to: span_end(self.pile, self.from),
            capacity: self.pile.capacity(self.pile.top(), self.from),
            level: fewest_level(self.pile, self.from),
            top: self.pile.top(),
            cores: self.core_states(),
        }
    }

    // How each core stands in that span.
    fn core_states(&self) -> [CoreState; 64]
        ensures { result ≡ core_states (A.Bank.means self.now.bottom.now) (B.Bank.means self.now.pile.now) self.now.from }
    {
        let none = [CoreState::Out; 64];
        let below = with_cores(none, self.bottom, self.from, CoreState::Withheld);
        with_cores(below, self.pile, self.from, CoreState::Usable)
    }
}

impl<A: Bank, B: Bank> Iterator for Spans<'_, A, B> {
    type Item = Span;

    ghost next_gives = { λ s r t. NextSpan (A.Bank.means s.bottom.now) (B.Bank.means s.pile.now) s.from r t.from × (t.bottom.now ≡ s.bottom.now) × (t.pile.now ≡ s.pile.now) };

    ghost remaining = { λ s. at_most ((B.Bank.means s.pile.now).slots - s.from) };

    #[tactic(auto, using(bank::proofs::Spans::mark_ahead))]
    fn next(&mut self) -> Option<Span> {
        if self.from >= self.pile.slots() {
            return None;
        }
        let span = self.span();
        self.from = span.to;
        Some(span)
    }
}

// The least level that has as many usable cores in a slot as the top level.
fn fewest_level<B: Bank>(pile: &B, slot: u32) -> u32
    ensures { FewestLevel (B.Bank.means pile.now) slot result }
{
    let top = pile.top();
    let all = pile.capacity(top, slot);
    (0..top)
        .find(|level| pile.capacity(*level, slot) >= all)
        .unwrap_or(top)
}

// The states, with a new one for each core that a bank has at its top level in a slot.
fn with_cores<B: Bank>(
    states: [CoreState; 64],
    cores: &B,
    slot: u32,
    state: CoreState,
) -> [CoreState; 64]
    ensures { result ≡ with_state (B.Bank.means cores.now) slot state states }
{
    let mut changed = states;
    let top = cores.top();
    // A lane is a number that the bank is asked about, and no place in a list.
    for lane in 0..cores.capacity(top, slot) {
        if let Some(core) = cores.core(top, slot, lane) {
            changed[core as usize] = state;
        }
    }
    changed
}
