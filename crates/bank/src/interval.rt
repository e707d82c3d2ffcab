// Intervals of slots.
ghost use Rattle.std.specs.Prelude.{◌≡◌, ◌==◌, map, min};
ghost use Rattle.std.specs.List.{fold};
ghost use Rattle.bank.specs.First.{first_above};
ghost use Rattle.bank.specs.Interval.{any_edge, edge_of, within};

// The slots t with from ≤ t < to.
#[derive(Clone, Copy)]
pub struct Interval {
    pub from: u32,
    pub to: u32,
}

impl Interval {
    // Whether a slot lies in the interval.
    pub fn covers(self, slot: u32) -> bool
        ensures { result ≡ within self.from self.to slot }
    {
        (self.from..self.to).contains(&slot)
    }

    // The first end of the interval above a slot and below a limit, else the limit. (Two numbers and no range: for the greatest
    // slot, `slot + 1..limit` cannot be written.)
    pub fn edge_after(self, slot: u32, limit: u32) -> u32
        ensures { result ≡ first_above (edge_of self.from self.to) limit slot }
    {
        either_after(self.from, self.to, slot, limit)
    }
}

// A row of a table that is in force for an interval of slots. (A trait of its own and no `From`, which says what it gives as
// a relation: `first_edge` speaks of the interval as a function of the row.)
pub trait Timed {
    ghost use Rattle.bank.specs.declared.interval.Interval.{Interval};

    ghost interval_of: { Self → Interval };

    fn interval(&self) -> Interval
        ensures { result ≡ interval_of self.now };
}

// The first end of an interval of some row above a slot and below a limit, else the limit.
#[tactic(auto, using(crate::proofs::Tables::first_folded))]
pub fn first_edge<T: Timed>(rows: &[T], slot: u32, limit: u32) -> u32
    ensures { result ≡ first_above (any_edge T.interval_of rows.now) limit slot }
{
    least_edge(rows, slot, limit)
}

// The least of a limit and each row's first end above a slot.
fn least_edge<T: Timed>(rows: &[T], slot: u32, limit: u32) -> u32
    ensures { result ≡ fold min limit (map (λ x. first_above (edge_of (T.interval_of x).from (T.interval_of x).to) limit slot) rows.now) }
{
    rows.iter()
        .map(|row| row.interval().edge_after(slot, limit))
        .fold(limit, |least, edge| least.min(edge))
}

// The first of two numbers above a slot and below a limit, else the limit.
fn either_after(a: u32, b: u32, slot: u32, limit: u32) -> u32
    ensures { result ≡ first_above (edge_of a b) limit slot }
{
    later(a, slot, limit).min(later(b, slot, limit))
}

// The number itself if it lies above a slot and below a limit, else the limit.
fn later(edge: u32, slot: u32, limit: u32) -> u32
    ensures { result ≡ first_above (λ t. t == edge) limit slot }
{
    if slot < edge && edge < limit {
        edge
    } else {
        limit
    }
}
