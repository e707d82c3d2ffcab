// The cores that are out of service in one slot, as one word of 64 bits.
ghost use Rattle.std.specs.Prelude.{◌≡◌, ◌%◌, ◌^◌, ◌<◌, map, length, if◌then◌else◌, nat_le};
ghost use Rattle.std.specs.List.{range_with_len, slice_get};
ghost use Rattle.calendar.specs.Cores.{bit, usable};

// Bit c is set where core c is out.
#[derive(Clone, Copy)]
pub(crate) struct CoresOut {
    pub(crate) word: u64,
}

impl CoresOut {
    // How many cores below a level are usable.
    pub(crate) fn usable_below(self, level: u32) -> u32
        ensures { result ≡ length (usable (bit self.word) level) }
    {
        level - low_bits(self.word, level).count_ones()
    }

    // Whether a core is out.
    pub(crate) fn is_out(self, core: u32) -> bool
        requires { core < 64 }
        ensures { result ≡ bit self.word core }
    {
        (self.word >> core) & 1 == 1
    }

    // The counts of usable cores below each level up to the top, and 0 above it. One count grows from core to core: a count of
    // each level's own, by `array::from_fn`, takes up to 2.6 times as long.
    pub(crate) fn counts(self, top: u32) -> [u32; 65]
        ensures { result ≡ map (λ k. (if nat_le k top then length (usable (bit self.word) k) else 0)) (range_with_len 0 65) }
    {
        let mut counts = [0; 65];
        let mut count = 0;
        let cores = top.min(64) as usize;
        for (core, level_above) in counts[1..cores + 1].iter_mut().enumerate() {
            if !self.is_out(core as u32) {
                count += 1;
            }
            *level_above = count;
        }
        counts
    }

    // The usable core of a lane below a level. The counts rise with the level, so halving finds where they pass the lane.
    // (The chain `(0..level).filter(..).nth(lane)` over the cores takes 35 ns and not 15.)
    pub(crate) fn usable_core(self, level: u32, lane: u32) -> Option<u32>
        ensures { result ≡ slice_get (usable (bit self.word) level) lane }
    {
        if lane >= self.usable_below(level) {
            return None;
        }
        let mut low = 0;
        let mut high = level;
        while high - low > 1 {
            let middle = low + (high - low) / 2;
            if self.usable_below(middle) <= lane {
                low = middle;
            } else {
                high = middle;
            }
        }
        Some(low)
    }
}

// The lowest n bits of a word.
fn low_bits(word: u64, n: u32) -> u64
    ensures { result ≡ word % 2 ^ n }
{
    if n < 64 { word & ((1 << n) - 1) } else { word }
}
