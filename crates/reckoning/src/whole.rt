use std::ops::{Add, Mul, Sub};

/// A whole number. Sums and products that leave 128 bits stay at its ends, so that no formula needs a bound.
#[derive(Clone, Copy, PartialEq, Eq, PartialOrd, Ord, Debug)]
pub struct Whole(pub i128);

pub const ZERO: Whole = Whole(0);

pub const MILLION: Whole = Whole(1_000_000);

impl Add for Whole {
    type Output = Whole;

    fn add(self, other: Whole) -> Whole {
        Whole(self.0.saturating_add(other.0))
    }
}

impl Sub for Whole {
    type Output = Whole;

    fn sub(self, other: Whole) -> Whole {
        Whole(self.0.saturating_sub(other.0))
    }
}

impl Mul for Whole {
    type Output = Whole;

    fn mul(self, other: Whole) -> Whole {
        Whole(self.0.saturating_mul(other.0))
    }
}

impl Whole {
    pub fn of<N: Into<i128>>(number: N) -> Whole {
        Whole(number.into())
    }

    /// ⌊self ÷ by⌋, for by above 0.
    pub fn floor(self, by: Whole) -> Whole {
        Whole(self.0.checked_div_euclid(by.0).unwrap_or(0))
    }

    pub fn within(self, low: Whole, high: Whole) -> bool {
        low <= self && self <= high
    }

    /// Not below the lesser of the two, not above the greater.
    pub fn held(self, one: Whole, other: Whole) -> Whole {
        self.max(one.min(other)).min(one.max(other))
    }

    /// Its value without the sign.
    pub fn size(self) -> Whole {
        self.max(ZERO - self)
    }
}
