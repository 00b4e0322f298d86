ghost use Rattle.std.specs.Prelude.{◌≡◌};
ghost use Rattle.drives.specs.Stage.{Made};

use crate::clock_stage::{ClockStage, FARTHEST};
use crate::direction::Direction;
use crate::fault::DriveFault;

impl ClockStage {
    /// A stage at this count, not ready and with its direction level forward;
    /// refused where the count lies outside the ends.
    pub fn new(count: i64) -> Result<ClockStage, DriveFault>
        ensures { Made count result }
    {
        if !(-FARTHEST..=FARTHEST).contains(&count) {
            return Err(DriveFault::NotMade);
        }
        Ok(ClockStage {
            count,
            direction: Direction::Forward,
            ready: false,
        })
    }

    /// The direction level: that of the last pulse accepted, forward before the first.
    pub fn direction(&self) -> Direction
        ensures { result ≡ self.now.direction }
    {
        self.direction
    }
}
