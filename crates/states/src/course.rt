ghost use Rattle.std.specs.Prelude.{◌≡◌};
ghost use Rattle.states.specs.View.{course_in};
ghost use Rattle.states.specs.Courses.{opening, course_rate};

use crate::state::Run;
use motion::MachineData;
use reader::{Motion, OffsetChoice, Way};

impl Run {
    /// A program at its start.
    pub fn opening(program: u8) -> Run
        ensures { course_in result ≡ opening program }
    {
        Run {
            program,
            taken: 0,
            motion: Motion::Rapid,
            offset: OffsetChoice::Without,
            way: Way::Absolute,
            feed: None,
            auxiliary: None,
        }
    }

    /// The rate of the block under way.
    pub fn rate(&self, machine: &MachineData) -> u64
        ensures { result ≡ course_rate machine.now (course_in self.now) }
    {
        match self.motion {
            Motion::Rapid => u64::from(machine.values().fm),
            Motion::Feed => machine.rate_of(self.feed.unwrap_or(0)),
        }
    }
}
