/// A linear congruential generator: the same seed gives the same numbers.
#[derive(Drop)]
pub struct Chance {
    state: u64,
}

impl Chance {
    pub fn new(seed: u64) -> Chance {
        Chance { state: seed }
    }

    /// A number from 0, below the bound; 0 for bound 0.
    pub fn below(&mut self, bound: u32) -> u32 {
        self.state = self
            .state
            .wrapping_mul(6_364_136_223_846_793_005)
            .wrapping_add(1_442_695_040_888_963_407);
        let high = u32::try_from(self.state >> 33).unwrap_or(0);
        high.checked_rem(bound).unwrap_or(0)
    }

    pub fn one_in(&mut self, bound: u32) -> bool {
        self.below(bound) == 0
    }

    /// A small number, at least `low` and below `low + bound`.
    pub fn small(&mut self, low: u8, bound: u8) -> u8 {
        let number = self.below(u32::from(bound));
        low.saturating_add(u8::try_from(number).unwrap_or(0))
    }

    pub fn pick<T: Copy + Drop>(&mut self, list: &[T], other: T) -> T {
        let length = u32::try_from(list.len()).unwrap_or(0);
        let index = usize::try_from(self.below(length)).unwrap_or(0);
        list.get(index).copied().unwrap_or(other)
    }
}
