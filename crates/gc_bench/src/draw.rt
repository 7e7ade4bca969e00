ghost use Rattle.std.specs.Prelude.{◌<◌, ◌≤◌};

use gc_base::Memory;
use std::alloc::Global;

/// Numbers drawn from a seed, the same at each run.
#[derive(Drop)]
pub struct Draw {
    state: u64,
}

impl Draw {
    pub fn new(seed: u32) -> Draw {
        Draw {
            state: u64::from(seed),
        }
    }

    /// A number below a bound.
    pub fn below(&mut self, bound: u64) -> u64
        requires { 0 < bound }
        ensures { result < bound }
    {
        self.state = self
            .state
            .wrapping_mul(6_364_136_223_846_793_005)
            .wrapping_add(1_442_695_040_888_963_407);
        (self.state >> 33) % bound
    }

    /// The numbers below a count, in random order.
    pub fn shuffled(&mut self, alloc: Global, count: u32) -> Result<Vec<u32>, Memory> {
        let mut numbers = Vec::with_capacity(alloc, count as usize)?;
        for number in 0..count {
            numbers.push(number)?;
        }
        for i in 1..numbers.len() {
            let other = self.below(i as u64 + 1) as usize;
            numbers.swap(i, other);
        }
        Ok(numbers)
    }
}
