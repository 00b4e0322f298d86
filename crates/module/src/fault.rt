ghost use Rattle.std.specs.Prelude.{◌≡◌};
ghost use Rattle.module.specs.declared.fault.Fault.TheVariants.{OfAxis, OfStore};
ghost use Rattle.module.specs.Faults.{number_of, UsedNumbers, layer_of, place_of, close_fault, abandon_fault};

use states::{AxisFault, Layer};
use store::fault::Place as StorePlace;
use store::{CloseRefusal, HandedBack, StoreFault};

/// Why a call is refused, or a tick fails.
#[derive(Clone, Copy, PartialEq, Eq, Debug)]
pub enum Fault {
    /// 1: the call names none of the three axes; with the program that it names, 0 for none.
    NoSuchAxis { axis: u8, program: u8 },
    /// The axis's own fault.
    OfAxis { axis: u8, fault: AxisFault },
    /// The store's own fault.
    OfStore(StoreFault),
    /// 36: an axis runs or holds this program.
    InUse(u8),
}

/// Where a fault is: a byte of the line, or axis, program and block, each 0 for none.
#[derive(Clone, Copy, PartialEq, Eq, Debug)]
pub enum Place {
    Byte(usize),
    At { axis: u8, program: u8, block: u8 },
}

/// The fault of the axis of a number, as it is.
impl From<(u8, AxisFault)> for Fault {
    ghost from_gives = { λ on result. result ≡ OfAxis on.0 on.1 };

    fn from((axis, fault): (u8, AxisFault)) -> Fault {
        Fault::OfAxis { axis, fault }
    }
}

impl From<StoreFault> for Fault {
    ghost from_gives = { λ fault result. result ≡ OfStore fault };

    fn from(fault: StoreFault) -> Fault {
        Fault::OfStore(fault)
    }
}

/// Why a closing by token is refused.
impl From<&CloseRefusal> for Fault {
    ghost from_gives = { λ refusal result. result ≡ close_fault refusal.now };

    fn from(refusal: &CloseRefusal) -> Fault {
        refusal.fault().into()
    }
}

/// Why an abandoning by token is refused.
impl From<&HandedBack> for Fault {
    ghost from_gives = { λ back result. result ≡ abandon_fault back.now };

    fn from(back: &HandedBack) -> Fault {
        back.fault.into()
    }
}

impl Fault {
    /// The number of the question; one that the rules use.
    pub fn number(self) -> u8
        ensures value { result ≡ number_of self }
        ensures used { UsedNumbers }
    {
        match self {
            Fault::NoSuchAxis { .. } => 1,
            Fault::OfAxis { fault, .. } => fault.cause.number(),
            Fault::OfStore(fault) => fault.number(),
            Fault::InUse(_) => 36,
        }
    }

    /// The part of the core in which the fault arises.
    pub fn layer(self) -> Layer
        ensures { result ≡ layer_of self }
    {
        match self {
            Fault::NoSuchAxis { .. } => Layer::Axis,
            Fault::OfAxis { fault, .. } => fault.cause.layer(),
            Fault::OfStore(StoreFault::Line(_)) => Layer::Line,
            Fault::OfStore(_) | Fault::InUse(_) => Layer::Store,
        }
    }

    /// Where the fault is: for a line its byte, else the axis, program and block that the call names or runs.
    pub fn place(self) -> Place
        ensures { result ≡ place_of self }
    {
        match self {
            Fault::NoSuchAxis { axis, program } => at(axis, program, 0),
            Fault::OfAxis { axis, fault } => at(axis, fault.program, fault.block),
            Fault::OfStore(fault) => match fault.place() {
                StorePlace::Byte(byte) => Place::Byte(byte),
                StorePlace::Program(program) => at(0, program, 0),
            },
            Fault::InUse(program) => at(0, program, 0),
        }
    }
}

fn at(axis: u8, program: u8, block: u8) -> Place
    ensures { result ≡ Place.At axis program block }
{
    Place::At {
        axis,
        program,
        block,
    }
}
