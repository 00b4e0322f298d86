ghost use Rattle.std.specs.Prelude.{◌≡◌, ◌≤◌, ◌-ℤ◌, unsigned_abs};
ghost use Rattle.states.specs.View.{raw_in};
ghost use Rattle.states.specs.Moves.{placed_in};

use crate::reading::Reading;
use crate::record::Record;
use crate::state::Journey;
use crate::working::Working;

impl Working {
    /// The pulses from zero to where the drive is.
    pub fn from_zero(&self, reading: Reading) -> i64
        ensures value { result ≡ (reading.count -ℤ self.now.zero) }
        ensures small { unsigned_abs result ≤ 200000000000000 }
    {
        reading.count - self.zero
    }
}

impl Record {
    /// Where the axis is on its move: the nearest unit, held between start and target.
    #[tactic(auto, unfolding(crate::specs::Moves::placed_in))]
    pub fn place(&self, journey: Journey, reading: Reading) -> i32
        ensures { result ≡ placed_in (raw_in self.now.machine) journey.start journey.target (reading.count -ℤ self.now.work.zero) }
    {
        let Some(mover) = &self.machine else {
            return journey.start;
        };
        let pulses = self.work.from_zero(reading);
        mover
            .machine()
            .coordinate(pulses, journey.start, journey.target)
    }
}
