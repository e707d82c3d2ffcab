// The cool-down: a layer that limits the usable cores at the end of each period.
#![tactic(auto)]

ghost use Rattle.std.specs.Prelude.{◌≡◌, ◌%◌, ◌<◌, ◌≤◌, ◌&&◌, if◌then◌else◌, Some, None, ◌==◌};
ghost use Rattle.cooldown.specs.Cooldown.{CoolDownRules, cool_down, left_of, rest_edge, resting};
ghost use Rattle.bank.specs.First.{first_above};
ghost use Rattle.cooldown.specs.Laws.Cooldowns.{left_below, left_rises, left_stays};
ghost use Rattle.bank.specs.Limits.{in_limits, nearest};
ghost use Rattle.bank.specs.Refusals.{refusal_of};

use bank::Bank;
use bank::layer::Layer;
use bank::reduction::Reduction;
use bank::refusal::Refusal;
use bank::size::{MAX_LEVEL, MAX_SLOTS};

// The last `rest` of every `period` slots have at most `limit` usable cores.
#[repr(C)]
#[derive(Clone, Copy, PartialEq, Eq, Debug, Default)]
pub struct Schedule {
    pub period: u32,
    pub rest: u32,
    pub limit: u32,
}

// The last `rest` slots of each `period` slots are for rest.
#[derive(Clone, Copy)]
struct Cycle {
    period: u32,
    rest: u32,
    ghost period_fits: { (1 ≤ period) × (period ≤ 4096) },
    ghost rest_fits: { rest ≤ 4096 },
}

impl Cycle {
    // A number outside its limits is taken as the nearest limit.
    fn new(period: u32, rest: u32) -> Cycle
        ensures period { result.period ≡ nearest 1 4096 period }
        ensures rest { result.rest ≡ nearest 0 4096 rest }
    {
        Cycle {
            period: period.clamp(1, MAX_SLOTS),
            rest: rest.min(MAX_SLOTS),
        }
    }

    // Whether a slot is for rest.
    fn resting(&self, slot: u32) -> bool
        ensures { result ≡ resting self.now.period self.now.rest slot }
    {
        self.period.saturating_sub(self.rest) <= slot % self.period
    }

    // The first begin or end of a rest above a slot and below a limit, else the limit.
    fn edge_after(&self, slot: u32, limit: u32) -> u32
        ensures { result ≡ first_above (rest_edge self.now.period self.now.rest) limit slot }
    {
        if self.rest == 0 || self.rest >= self.period || slot >= limit {
            return limit;
        }
        let end = remainder_after(slot, self.period, 0, limit);
        let begin = remainder_after(slot, self.period, self.period - self.rest, limit);
        end.min(begin)
    }
}

// The first number above a slot and below a limit that leaves a remainder by the period, else the limit.
fn remainder_after(slot: u32, period: u32, remainder: u32, limit: u32) -> u32
    requires ahead { slot < limit }
    requires remainder { remainder < period }
    ensures { result ≡ first_above (λ t. t % period == remainder) limit slot }
{
    let here = (slot / period * period).saturating_add(remainder);
    let next = if slot < here {
        here
    } else {
        here.saturating_add(period)
    };
    next.min(limit)
}

// Refuses a period outside 1 to 4,096, a rest above 4,096 or a limit above 64.
pub fn check_cool_down(schedule: Schedule) -> Result<(), Refusal>
    ensures { refusal_of result ≡ (if in_limits 1 4096 schedule.period && (in_limits 0 4096 schedule.rest && in_limits 0 64 schedule.limit) then None else Some 16) }
{
    let fits = (1..=MAX_SLOTS).contains(&schedule.period)
        && schedule.rest <= MAX_SLOTS
        && schedule.limit <= MAX_LEVEL;
    Refusal::OutOfLimits.unless(fits)
}

#[derive(Drop)]
pub struct CoolDown<B> {
    below: B,
    cycle: Cycle,
    limit: u32,
}

impl<B: Bank> CoolDown<B> {
    // A number outside its limits is taken as the nearest limit. With any schedule of a period above 0, over any bank that
    // keeps the rules, a cool-down keeps them.
    pub fn new(below: B, schedule: Schedule) -> CoolDown<B>
        ensures below { result.below ≡ below }
        ensures meaning { ⟦<CoolDown<B> as Bank>⟧.means result ≡ cool_down (nearest 1 4096 schedule.period) (nearest 0 4096 schedule.rest) (nearest 0 64 schedule.limit) (B.means below) }
        ensures rules { CoolDownRules }
    {
        CoolDown {
            below,
            cycle: Cycle::new(schedule.period, schedule.rest),
            limit: schedule.limit.min(MAX_LEVEL),
        }
    }
}

impl<B: Bank> Layer for CoolDown<B> {
    type Below = B;

    ghost beneath = { λ b. b.below };

    ghost left = { λ b. left_of b.cycle.period b.cycle.rest b.limit };

    ghost edge = { λ b. rest_edge b.cycle.period b.cycle.rest };

    ghost takes = { λ b. left_below b.cycle.period b.cycle.rest b.limit };

    ghost rises = { λ b. left_rises b.cycle.period b.cycle.rest b.limit };

    ghost stays = { λ b. left_stays b.cycle.period b.cycle.rest b.limit b.cycle.period_fits.0 };

    fn below(&self) -> &B {
        &self.below
    }

    fn reduction(&self, slot: u32) -> Reduction {
        if self.cycle.resting(slot) {
            Reduction::AtMost(self.limit)
        } else {
            Reduction::Less(0)
        }
    }

    fn edge_after(&self, slot: u32, limit: u32) -> u32 {
        self.cycle.edge_after(slot, limit)
    }
}
