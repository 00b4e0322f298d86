use crate::whole::{MILLION, Whole, ZERO};
use motion::RawData;
use units::Measure;

pub const REACH: Whole = Whole(40_000_000);

const MOST_STEPS: u32 = 4096;

/// The machine data of an axis.
#[derive(Clone, Copy)]
pub struct Data {
    pub measure: Measure,
    pub greatest_rate: Whole,
    first_rate: Whole,
    increase: Whole,
    /// units and pulses of a turn
    units: Whole,
    pulses: Whole,
    pub low: Whole,
    pub high: Whole,
    pub reference: Whole,
    offsets: [i32; 4],
}

fn in_range(raw: &RawData) -> bool {
    let [o1, o2, o3, o4] = raw.offsets;
    let ranges = [
        (raw.fm, 40_000, 100_000_000),
        (raw.fs, 1_000, 10_000_000),
        (raw.increase, 20, 2_599_999),
        (raw.duration, 1, 31),
        (raw.patterns, 4, 40),
        (raw.units, 1, 1_000_000),
        (raw.pulses, 1, 10_000),
    ];
    for (value, low, high) in ranges {
        if value < low || value > high {
            return false;
        }
    }
    for place in [raw.low, raw.high, raw.reference, o1, o2, o3, o4] {
        if !in_reach(place) {
            return false;
        }
    }
    true
}

impl Data {
    /// The data in force where 4 and 5 do not refuse them.
    pub fn checked(raw: RawData) -> Result<Data, u8> {
        let data = Data::of(&raw);
        if !in_range(&raw) {
            return Err(4);
        }
        if !data.agree() {
            return Err(5);
        }
        Ok(data)
    }

    fn of(raw: &RawData) -> Data {
        Data {
            measure: raw.measure,
            greatest_rate: Whole::of(raw.fm),
            first_rate: Whole::of(raw.fs),
            increase: Whole::of(raw.increase),
            units: Whole::of(raw.units),
            pulses: Whole::of(raw.pulses),
            low: Whole::of(raw.low),
            high: Whole::of(raw.high),
            reference: Whole::of(raw.reference),
            offsets: raw.offsets,
        }
    }

    fn agree(&self) -> bool {
        self.first_rate <= self.greatest_rate
            && self.low < self.high
            && self.reference.within(self.low, self.high)
            && self.last_step(self.greatest_rate).is_some()
    }

    /// The offset of G54 to G57; none for G53.
    pub fn offset(&self, word: u8) -> Whole {
        let [o1, o2, o3, o4] = self.offsets;
        match word {
            54 => Whole::of(o1),
            55 => Whole::of(o2),
            56 => Whole::of(o3),
            57 => Whole::of(o4),
            _ => ZERO,
        }
    }

    /// ⌊speed × U × 1,000 × P ÷ (60 × W)⌋
    pub fn rate(&self, speed: Whole) -> Whole {
        let units = match self.measure {
            Measure::Inch => Whole(10_000),
            Measure::Millimetre | Measure::Degree => Whole(1_000),
        };
        (speed * units * Whole(1_000) * self.pulses).floor(Whole(60) * self.units)
    }

    /// ⌊(2 × c × P + W) ÷ (2 × W)⌋
    pub fn pulses(&self, coordinate: Whole) -> Whole {
        (Whole(2) * coordinate * self.pulses + self.units).floor(Whole(2) * self.units)
    }

    /// ⌊(2 × n × W + P) ÷ (2 × P)⌋
    pub fn nearest(&self, pulses: Whole) -> Whole {
        (Whole(2) * pulses * self.units + self.pulses).floor(Whole(2) * self.pulses)
    }

    // f(i + 1) of f(i)
    fn next(&self, f: Whole) -> Whole {
        let above = f - self.first_rate;
        let h = Whole(20) * (self.greatest_rate - self.first_rate);
        let increase = (self.increase * (h - Whole(19) * above)).floor(h);
        self.greatest_rate.min(f + increase)
    }

    /// The first step with a frequency of the rate or more.
    pub fn last_step(&self, rate: Whole) -> Option<u32> {
        let mut f = self.first_rate;
        for step in 1..=MOST_STEPS {
            if f >= rate {
                return Some(step);
            }
            f = self.next(f);
        }
        None
    }

    /// g of a step, and the sum of all up to it; 0 and 0 for step 0.
    pub fn run_up(&self, rate: Whole, step: u32) -> (Whole, Whole) {
        let mut f = self.first_rate;
        let mut last = ZERO;
        let mut sum = ZERO;
        for _ in 0..step {
            last = f.min(rate);
            sum = sum + last;
            f = self.next(f);
        }
        (last, sum)
    }
}

pub fn in_reach(place: i32) -> bool {
    Whole::of(place).size() <= REACH
}

/// Whole pulses in so many millionths.
pub fn whole_pulses(millionths: Whole) -> Whole {
    millionths.floor(MILLION)
}
