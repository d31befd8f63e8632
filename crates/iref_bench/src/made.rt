//! Numbers that look random.
ghost use Rattle.std.specs.Prelude.{◌<◌};

use iref_examples::chosen::taken_below;

/// A row of numbers that a seed determines, by splitmix64 (Steele, Lea and Flood, 2014).
#[derive(Drop)]
pub struct Numbers {
    state: u64,
}

impl Numbers {
    /// The row of a seed.
    pub fn new(seed: u32) -> Self {
        Numbers {
            state: u64::from(seed),
        }
    }

    /// The next number.
    pub fn next(&mut self) -> u64 {
        self.state = self.state.wrapping_add(0x9e37_79b9_7f4a_7c15);
        let mixed = (self.state ^ self.state >> 30).wrapping_mul(0xbf58_476d_1ce4_e5b9);
        let mixed = (mixed ^ mixed >> 27).wrapping_mul(0x94d0_49bb_1331_11eb);
        mixed ^ mixed >> 31
    }

    /// The next number, taken below a limit.
    pub fn below(&mut self, limit: u64) -> u64
        requires { 0 < limit }
        ensures { result < limit }
    {
        taken_below(self.next(), limit)
    }
}
