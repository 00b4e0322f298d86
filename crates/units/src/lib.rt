//! What an axis and a program have in common: the measure, and the greatest coordinate.
#![tactic(auto)]

ghost use Rattle.std.specs.Prelude.{◌≡◌};
ghost use Rattle.units.specs.Measures.{places, units_in, UnitsByPlaces};

/// The greatest coordinate, in units, to either side of zero.
pub const REACH: i32 = 40_000_000;

/// What one unit is.
#[derive(Clone, Copy, PartialEq, Eq, Debug)]
pub enum Measure {
    /// 0.001 mm
    Millimetre,
    /// 0.0001 inch
    Inch,
    /// 0.001 degree
    Degree,
}

impl Measure {
    /// How many decimals a unit has.
    pub fn places(self) -> usize
        ensures { result ≡ places self }
    {
        match self {
            Measure::Inch => 4,
            Measure::Millimetre | Measure::Degree => 3,
        }
    }

    /// How many units one mm, inch or degree has.
    pub fn units_in(self) -> u64
        ensures value { result ≡ units_in self }
        ensures law { UnitsByPlaces }
    {
        10u64.pow(self.places() as u32)
    }
}
