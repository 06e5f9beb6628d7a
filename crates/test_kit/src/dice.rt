//! Pseudo-random numbers, by a fixed rule.

ghost use Rattle.std.specs.Prelude.{◌<◌, length};

/// A sequence of numbers that look random, the same in each run.
#[derive(Drop)]
pub struct Dice {
    seed: u64,
}

impl Dice {
    pub fn new(seed: u64) -> Dice {
        Dice { seed }
    }

    /// Returns the next number.
    fn roll(&mut self) -> u32 {
        self.seed = self
            .seed
            .wrapping_mul(6364136223846793005)
            .wrapping_add(1442695040888963407);
        (self.seed >> 33) as u32
    }

    /// Returns the next number, below a bound.
    pub fn below(&mut self, bound: u32) -> u32
        requires { 0 < bound }
        ensures { result < bound }
    {
        self.roll() % bound
    }

    /// Returns one of the items.
    pub fn pick<T: Copy>(&mut self, items: &[T]) -> T
        requires { 0 < length items.now }
    {
        items[self.roll() as usize % items.len()]
    }
}
