ghost use Rattle.std.specs.Prelude.{◌≡◌, ◌≤◌, ◌≤ℤ◌, pos, unsigned_abs};
ghost use Rattle.std.specs.Int.{int_div_euclid};
ghost use Rattle.motion.specs.Places.{rounded_of, held, pulses_by, nearest_by, rate_by};

use crate::machine::MachineData;

// The floor of a quotient. Nearly every number is narrow, and its division is much the faster.
fn floored(number: i128, by: i64) -> i128
    requires { pos 1 ≤ℤ by }
    ensures { result ≡ int_div_euclid number by }
{
    match i64::try_from(number) {
        Ok(number) => i128::from(number.div_euclid(by)),
        Err(_) => number.div_euclid(i128::from(by)),
    }
}

// z × k ÷ j to the nearest whole number, halves upward. The width holds every result.
fn rounded(z: i64, k: u32, j: u32) -> i128
    requires { 1 ≤ j }
    ensures { result ≡ rounded_of z k j }
{
    // half the divisor is added first, so that the quotient's floor is the nearest whole number
    let sum = i128::from(z) * (2 * i128::from(k)) + i128::from(j);
    floored(sum, 2 * i64::from(j))
}

// q, held between two coordinates.
fn held_between(start: i32, target: i32, q: i128) -> i32
    ensures { result ≡ held start target q }
{
    let low = i128::from(start.min(target));
    let high = i128::from(start.max(target));
    q.clamp(low, high) as i32
}

impl MachineData {
    /// The pulses of a coordinate, from zero. No 32-bit coordinate has more than 50,000,000,000,000.
    pub fn pulses_of(&self, coordinate: i32) -> i64
        ensures value { result ≡ pulses_by self.now coordinate }
        ensures small { unsigned_abs result ≤ 50000000000000 }
    {
        rounded(i64::from(coordinate), self.values.pulses, self.values.units) as i64
    }

    /// The unit nearest to n pulses from zero.
    pub fn nearest_to(&self, n: i64) -> i128
        ensures { result ≡ nearest_by self.now n }
    {
        rounded(n, self.values.units, self.values.pulses)
    }

    /// The coordinate of a move under way: the unit nearest to n, held between start and target.
    pub fn coordinate(&self, n: i64, start: i32, target: i32) -> i32
        ensures { result ≡ held start target (nearest_by self.now n) }
    {
        held_between(start, target, self.nearest_to(n))
    }

    /// The rate of a speed per minute, in mHz.
    pub fn rate_of(&self, speed: u16) -> u64
        ensures { result ≡ rate_by self.now speed }
    {
        let per_minute = u64::from(speed) * self.values.measure.units_in() * 1_000;
        per_minute * u64::from(self.values.pulses) / (60 * u64::from(self.values.units))
    }
}
