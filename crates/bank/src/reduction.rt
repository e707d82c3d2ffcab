// What a layer takes away of the usable cores in a slot.
ghost use Rattle.std.specs.Prelude.{◌≡◌, map};
ghost use Rattle.bank.specs.Reduction.{reduced};

#[derive(Clone, Copy, PartialEq, Eq, Debug)]
pub enum Reduction {
    // So many, or all where there are fewer.
    Less(u32),
    // All above so many.
    AtMost(u32),
}

impl Reduction {
    // What is left.
    pub fn left(self, usable: u32) -> u32
        ensures { result ≡ reduced self usable }
    {
        match self {
            Reduction::Less(withheld) => usable.saturating_sub(withheld),
            Reduction::AtMost(limit) => usable.min(limit),
        }
    }

    // What is left of each of the capacities at the levels 0 to 64, in place: the array's own `map` takes four times as long.
    pub(crate) fn each_left(self, capacities: [u32; 65]) -> [u32; 65]
        ensures { result ≡ map (reduced self) capacities }
    {
        let mut left = capacities;
        for n in left.iter_mut() {
            *n = self.left(*n);
        }
        left
    }
}
