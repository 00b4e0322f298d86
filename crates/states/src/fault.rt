ghost use Rattle.std.specs.Prelude.{◌≡◌};
ghost use Rattle.states.specs.declared.fault.Cause.TheVariants.{OfDrive, OfData, UnknownMode};
ghost use Rattle.states.specs.Faults.{cause_number, cause_layer};
ghost use Rattle.states.specs.Effects.{fault_at};

use crate::mode::UnknownMode;
use drives::fault::DriveFault;
use motion::DataFault;

/// Why a call on an axis is refused, or a tick fails.
#[derive(Clone, Copy, PartialEq, Eq, Debug)]
pub enum Cause {
    /// 3: machine data are for an axis that stands.
    DataWhileBusy,
    /// 4, 5: the machine data's own fault.
    OfData(DataFault),
    /// 7
    NoMachineData,
    /// 8
    UnknownMode,
    /// 9: the mode does not admit the command.
    NotAdmitted,
    /// 10
    StillBraking,
    /// 11: the axis does not stand; the order acts as a stop.
    NotStanding,
    /// 12
    NotReferenced,
    /// 13: the speed or the double word is out of its range.
    ValueOutside,
    /// 14
    NotStored,
    /// 15: the program's measure is another than the axis's.
    OtherMeasure,
    /// 16
    NothingHeld,
    /// 17: the held program is not stored any more.
    HeldNotStored,
    /// 18
    RateOutside,
    /// 19
    TargetOutside,
    /// 20: the target's count is outside the drive's ends.
    CountOutside,
    /// 22: the new shift is out of its range.
    ShiftOutside,
    /// 23: the limit switch ahead is active.
    SwitchAhead,
    /// 21, 24: the drive's own fault.
    OfDrive(DriveFault),
}

/// The part of the core in which a fault arises.
#[derive(Clone, Copy, PartialEq, Eq, Debug)]
pub enum Layer {
    Line,
    Store,
    Drive,
    Axis,
}

/// A fault of an axis: its cause, and the program and block where it arose, 0 for none.
// A refused start may name program 0, which a host reads as none.
#[derive(Clone, Copy, PartialEq, Eq, Debug)]
pub struct AxisFault {
    pub cause: Cause,
    pub program: u8,
    pub block: u8,
}

impl Cause {
    /// The number of the question, as in the comments of the cases.
    pub fn number(self) -> u8
        ensures { result ≡ cause_number self }
    {
        match self {
            Cause::DataWhileBusy => 3,
            Cause::OfData(fault) => fault.number(),
            Cause::NoMachineData => 7,
            Cause::UnknownMode => 8,
            Cause::NotAdmitted => 9,
            Cause::StillBraking => 10,
            Cause::NotStanding => 11,
            Cause::NotReferenced => 12,
            Cause::ValueOutside => 13,
            Cause::NotStored => 14,
            Cause::OtherMeasure => 15,
            Cause::NothingHeld => 16,
            Cause::HeldNotStored => 17,
            Cause::RateOutside => 18,
            Cause::TargetOutside => 19,
            Cause::CountOutside => 20,
            Cause::ShiftOutside => 22,
            Cause::SwitchAhead => 23,
            Cause::OfDrive(fault) => fault.number(),
        }
    }

    /// The part of the core in which the fault arises.
    pub fn layer(self) -> Layer
        ensures { result ≡ cause_layer self }
    {
        match self {
            Cause::NotStored | Cause::HeldNotStored => Layer::Store,
            Cause::OfDrive(_) => Layer::Drive,
            _ => Layer::Axis,
        }
    }
}

impl From<DriveFault> for Cause {
    ghost from_gives = { λ fault cause. cause ≡ OfDrive fault };

    fn from(fault: DriveFault) -> Cause {
        Cause::OfDrive(fault)
    }
}

impl From<DataFault> for Cause {
    ghost from_gives = { λ fault cause. cause ≡ OfData fault };

    fn from(fault: DataFault) -> Cause {
        Cause::OfData(fault)
    }
}

impl From<UnknownMode> for Cause {
    ghost from_gives = { λ _ cause. cause ≡ UnknownMode };

    fn from(_unknown: UnknownMode) -> Cause {
        Cause::UnknownMode
    }
}

/// A fault at no program.
impl From<Cause> for AxisFault {
    ghost from_gives = { λ cause fault. fault ≡ fault_at 0 0 cause };

    fn from(cause: Cause) -> AxisFault {
        AxisFault {
            cause,
            program: 0,
            block: 0,
        }
    }
}
