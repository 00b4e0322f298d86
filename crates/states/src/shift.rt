ghost use Rattle.std.specs.Prelude.{◌≡◌, ◌≤◌, ◌+ℤ◌, unsigned_abs};
ghost use Rattle.motion.specs.Travel.{Going};
ghost use Rattle.states.specs.View.{course_in, course_if, raw_in, status_of, phase_of};
ghost use Rattle.states.specs.State.{course_of, uses};
ghost use Rattle.states.specs.Shift.{offset_by, program_offset, own_shift, shift_of};

use crate::record::Record;
use crate::state::{Run, State};
use crate::working::Working;
use motion::MachineData;
use reader::OffsetChoice;

impl Run {
    /// The offset that the program has chosen.
    pub fn chosen_offset(&self, machine: &MachineData) -> i32
        ensures { result ≡ offset_by machine.now (course_in self.now).offset }
    {
        let [first, second, third, fourth] = machine.values().offsets;
        match self.offset {
            OffsetChoice::Without => 0,
            OffsetChoice::First => first,
            OffsetChoice::Second => second,
            OffsetChoice::Third => third,
            OffsetChoice::Fourth => fourth,
        }
    }
}

impl State {
    /// Whether this program runs or is held.
    pub fn uses(&self, program: u8) -> bool
        ensures { (g : Going) → result ≡ uses program (phase_of g self.now) }
    {
        self.run().is_some_and(|run| run.program == program)
    }

    /// The program that runs or is held.
    pub fn run(&self) -> Option<Run>
        ensures { (g : Going) → course_if result ≡ course_of (phase_of g self.now) }
    {
        match self {
            State::Standing => None,
            State::Moving(journey) | State::Braking(journey) => journey.run,
            State::Held(hold) => Some(hold.run),
            State::BetweenBlocks(run) => Some(*run),
        }
    }
}

impl Working {
    /// The shift outside a program: zero offset and tool value.
    pub fn own_shift(&self) -> i64
        ensures value { result ≡ (self.now.offset +ℤ self.now.tool) }
        ensures small { unsigned_abs result ≤ 4294967296 }
    {
        i64::from(self.offset) + i64::from(self.tool)
    }

    /// The shift inside a program that has chosen this offset.
    pub fn shift_with(&self, chosen: i32) -> i64
        ensures value { result ≡ ((self.now.offset +ℤ self.now.tool) +ℤ chosen) }
        ensures small { unsigned_abs result ≤ 6442450944 }
    {
        self.own_shift() + i64::from(chosen)
    }
}

impl Record {
    // The offset of the program that runs or is held.
    fn program_offset(&self) -> i32
        ensures { result ≡ program_offset (raw_in self.now.machine) (course_of (status_of self.now).work.phase) }
    {
        match (&self.machine, self.work.state.run()) {
            (Some(mover), Some(run)) => run.chosen_offset(mover.machine()),
            _ => 0,
        }
    }

    /// The shift, with the offset of the program that runs or is held.
    pub fn shift(&self) -> i64
        ensures value { result ≡ shift_of (raw_in self.now.machine) (status_of self.now).work }
        ensures small { unsigned_abs result ≤ 6442450944 }
    {
        self.work.shift_with(self.program_offset())
    }
}
