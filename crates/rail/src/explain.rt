use drives::fault::DriveFault;
use module::{Act, Call, Fault};
use motion::DataFault;
use states::{Cause, Mode, Observation, Pace};
use std::fmt;
use store::StoreFault;

/// What it means that a call is answered by done.
pub fn done_in_words(call: Call) -> &'static str {
    match call {
        Call::OnAxis { act, .. } => act_in_words(act),
        Call::Open { .. } => "the entry is open",
        Call::Add { .. } => "the line is added",
        Call::Close { .. } => "the program is stored",
        Call::Abandon { .. } => "the entry is over; its lines are gone",
        Call::DeleteProgram { .. } => "the program is deleted",
    }
}

fn act_in_words(act: Act) -> &'static str {
    match act {
        Act::Enter(_) => "the machine data are entered",
        Act::Delete => "the machine data are deleted",
        Act::Order(_) => "the order is accepted",
        Act::Level(_) => "the levels are set",
        Act::Tick => "one tick is made",
        Act::Observe => "the axis is shown",
    }
}

/// What a fault means.
pub fn in_words(fault: Fault) -> &'static str {
    match fault {
        Fault::NoSuchAxis { .. } => "there is no such axis",
        Fault::OfAxis { fault, .. } => cause_in_words(fault.cause),
        Fault::OfStore(fault) => store_in_words(fault),
        Fault::InUse(_) => "an axis runs or holds this program",
    }
}

fn store_in_words(fault: StoreFault) -> &'static str {
    match fault {
        StoreFault::NotStored(_) => "no such program is stored",
        StoreFault::OutOfRange(_) => "a program has a number from 1 to 255",
        StoreFault::AlreadyStored(_) => "this program is stored already",
        StoreFault::StoreFull(_) => "sixteen programs are stored",
        StoreFault::EntryOpen(_) => "another entry is open",
        StoreFault::NotOpen(_) => "this entry is not the open one",
        StoreFault::Line(_) => "the line is refused; the entry stays open",
        StoreFault::NotClosable(_) => "the program lacks its end or a feed; the entry is over",
    }
}

fn cause_in_words(cause: Cause) -> &'static str {
    match cause {
        Cause::DataWhileBusy => "machine data are for an axis that stands",
        Cause::OfData(DataFault::OutOfRange) => "a datum is out of its range",
        Cause::OfData(DataFault::Disagree) => "the machine data do not agree",
        Cause::NoMachineData => "there is no machine data",
        Cause::UnknownMode => "there is no such mode",
        Cause::NotAdmitted => "the mode does not admit the command",
        Cause::StillBraking => "the axis is braking",
        Cause::NotStanding => "the axis does not stand; the order acts as a stop",
        Cause::NotReferenced => "the axis is not referenced",
        Cause::ValueOutside => "the speed or the double word is out of its range",
        Cause::NotStored => "the program is not stored",
        Cause::OtherMeasure => "the program has another measure than the axis",
        Cause::NothingHeld => "no program is held on the axis",
        Cause::HeldNotStored => "the held program is not stored any more",
        Cause::RateOutside => "the rate is not from 1 to the maximum frequency",
        Cause::TargetOutside => "the target is outside the limits",
        Cause::CountOutside => "the target is outside the ends of the drive",
        Cause::ShiftOutside => "the new shift is out of its range",
        Cause::SwitchAhead => "the limit switch ahead is active",
        Cause::OfDrive(DriveFault::NotMade) => "the drive cannot be made",
        Cause::OfDrive(DriveFault::NotReadyToMove) => "the drive is not ready for a move",
        Cause::OfDrive(DriveFault::NotReadyInMotion) => "the drive was not ready in motion",
    }
}

// The bits of the feedback byte, the highest first.
const FEEDBACK: [(u8, &str); 7] = [
    (0x80, "stands"),
    (0x40, "without machine data"),
    (0x20, "without reference"),
    (0x08, "referenced"),
    (0x04, "in position"),
    (0x02, "in mm"),
    (0x01, "in degrees"),
];

/// What an observation says beside its numbers: the mode, the feedback byte and the fault.
#[derive(Clone, Copy)]
pub struct Explained(pub Observation<Fault>);

impl fmt::Display for Explained {
    fn fmt<W: fmt::Write>(&self, f: &mut fmt::Formatter<W>) -> fmt::Result {
        let number = u8::from(self.0.mode);
        let name = name_of(self.0.mode);
        write!(f, "mode {number} ({name})")?;
        write_feedback(self.0.feedback, f)?;
        match self.0.fault {
            None => Ok(()),
            Some(fault) => {
                let words = in_words(fault);
                write!(f, "; {words}")
            }
        }
    }
}

fn write_feedback<W: fmt::Write>(feedback: u8, f: &mut fmt::Formatter<W>) -> fmt::Result {
    for (bit, words) in FEEDBACK {
        if feedback & bit != 0 {
            write!(f, ", {words}")?;
        }
    }
    Ok(())
}

fn name_of(mode: Mode) -> &'static str {
    match mode {
        Mode::Jog(_) => "jog",
        Mode::AxisOff => "axis off",
        Mode::Reference => "reference",
        Mode::Position => "move to a target",
        Mode::Relative => "move by a distance",
        Mode::Program(Pace::Continuous) => "program",
        Mode::Program(Pace::SingleBlock) => "program, held after each move",
        Mode::OffsetTo => "zero offset set",
        Mode::OffsetBy => "zero offset added to",
        Mode::ClearOffset => "zero offset cleared",
        Mode::ToolTo => "tool value set",
        Mode::ClearTool => "tool value cleared",
        Mode::ClearFault => "fault cleared",
    }
}
