ghost use Rattle.std.specs.Prelude.{◌≡◌, ◌+◌, ◌≤◌, ◌-ℤ◌};
ghost use Rattle.states.specs.View.{raw_in, status_of};
ghost use Rattle.states.specs.Shift.{shift_of};
ghost use Rattle.states.specs.Observation.{bit, measured, in_degrees, in_millimetres, rest_in, feedback_of, shown_by, observed};

use crate::fault::AxisFault;
use crate::observation::Observation;
use crate::record::Record;
use crate::state::State;
use units::Measure;

// The bits of the feedback byte; bit 4 is always 0.
const DEGREES: u8 = 0x01;

const METRIC: u8 = 0x02;

const IN_POSITION: u8 = 0x04;

const REFERENCED: u8 = 0x08;

const REFERENCE_MISSING: u8 = 0x20;

const DATA_MISSING: u8 = 0x40;

const STANDING: u8 = 0x80;

fn bit(set: bool, value: u8) -> u8
    ensures value { result ≡ bit set value }
    ensures most { result ≤ value }
{
    if set { value } else { 0 }
}

impl Record {
    /// What observing answers; nothing changes.
    pub fn observe(&self) -> Observation<AxisFault>
        ensures { shown_by result ≡ observed (status_of self.now) }
    {
        Observation {
            mode: self.work.mode,
            auxiliary: self.work.auxiliary,
            coordinate: self.work.coordinate,
            shift: self.shift(),
            actual: self.actual(),
            rest: self.rest(),
            fault: self.work.fault,
            feedback: self.feedback(),
        }
    }

    // The coordinate less the shift.
    fn actual(&self) -> i64
        ensures { result ≡ (self.now.work.coordinate -ℤ shift_of (raw_in self.now.machine) (status_of self.now).work) }
    {
        let shift = self.shift();
        i64::from(self.work.coordinate) - shift
    }

    // What is left of a move.
    fn rest(&self) -> i64
        ensures { result ≡ rest_in (status_of self.now).work.phase self.now.work.coordinate }
    {
        match self.work.state {
            State::Moving(journey) | State::Braking(journey) => {
                i64::from(journey.target) - i64::from(self.work.coordinate)
            }
            State::Standing | State::Held(_) | State::BetweenBlocks(_) => 0,
        }
    }

    // Bits 0 and 1.
    fn measure_bits(&self) -> u8
        ensures value { result ≡ bit (measured in_degrees (raw_in self.now.machine)) 1 + bit (measured in_millimetres (raw_in self.now.machine)) 2 }
        ensures most { result ≤ 2 }
    {
        let Some(mover) = &self.machine else {
            return 0;
        };
        match mover.machine().values().measure {
            Measure::Degree => DEGREES,
            Measure::Millimetre => METRIC,
            Measure::Inch => 0,
        }
    }

    fn feedback(&self) -> u8
        ensures { result ≡ feedback_of (raw_in self.now.machine) (status_of self.now).work }
    {
        self.measure_bits()
            + bit(self.work.in_position, IN_POSITION)
            + bit(self.work.referenced, REFERENCED)
            + bit(!self.work.referenced, REFERENCE_MISSING)
            + bit(self.machine.is_none(), DATA_MISSING)
            + bit(self.work.state.stands(), STANDING)
    }
}
