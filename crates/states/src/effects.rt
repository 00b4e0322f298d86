ghost use Rattle.std.specs.Prelude.{◌≡◌};
ghost use Rattle.states.specs.State.{with_work};
ghost use Rattle.states.specs.View.{course_if, raw_in, status_of};
ghost use Rattle.states.specs.Effects.{set_off, fault_in};

use crate::aim::Aim;
use crate::fault::{AxisFault, Cause};
use crate::movers::begin_in;
use crate::record::Record;
use crate::state::{Journey, Run, State};

impl Record {
    /// A new move from where the axis is; it runs from the next tick.
    pub fn set_off(&mut self, aim: Aim, run: Option<Run>)
        ensures { status_of self.new ≡ with_work (set_off (raw_in self.old.machine) aim (course_if run) (status_of self.old).work) (status_of self.old) }
    {
        begin_in(&mut self.machine, aim);
        self.work.in_position = false;
        self.work.state = State::Moving(Journey {
            start: self.work.coordinate,
            target: aim.target,
            distance: aim.distance,
            run,
        });
    }
}

/// A fault in a program at its last block taken, or in none.
pub fn fault_in(run: Option<Run>, cause: Cause) -> AxisFault
    ensures { result ≡ fault_in (course_if run) cause }
{
    match run {
        None => cause.into(),
        Some(run) => AxisFault {
            cause,
            program: run.program,
            block: run.taken,
        },
    }
}
