ghost use Rattle.std.specs.Prelude.{◌≡◌};
ghost use Rattle.store.specs.declared.fault.StoreFault.TheVariants.{Line};
ghost use Rattle.store.specs.Faults.{number_of, place_of};

use reader::LineFault;

/// The first question that a call of the store fails. All but a line's fault
/// hold the number of the program that the call names.
#[derive(Clone, Copy, PartialEq, Eq, Debug)]
pub enum StoreFault {
    /// 14: no such program is stored.
    NotStored(u8),
    /// 26: a program's number is 1 to 255.
    OutOfRange(u8),
    /// 27: the number is stored already.
    AlreadyStored(u8),
    /// 28: sixteen programs are stored.
    StoreFull(u8),
    /// 29: another entry is open.
    EntryOpen(u8),
    /// 30: this entry is not the open one.
    NotOpen(u8),
    /// 31 to 34: the line's own fault.
    Line(LineFault),
    /// 35: the end of the program or a feed is missing, or the end comes early.
    NotClosable(u8),
}

/// Where a fault is: a byte of the line, or the program that the call names.
#[derive(Clone, Copy, PartialEq, Eq, Debug)]
pub enum Place {
    Byte(usize),
    Program(u8),
}

impl StoreFault {
    /// The number of the question.
    pub fn number(&self) -> u8
        ensures { result ≡ number_of self.now }
    {
        match self {
            StoreFault::NotStored(_) => 14,
            StoreFault::OutOfRange(_) => 26,
            StoreFault::AlreadyStored(_) => 27,
            StoreFault::StoreFull(_) => 28,
            StoreFault::EntryOpen(_) => 29,
            StoreFault::NotOpen(_) => 30,
            StoreFault::Line(fault) => fault.number(),
            StoreFault::NotClosable(_) => 35,
        }
    }

    /// The byte of a line's fault, else the program.
    pub fn place(&self) -> Place
        ensures { result ≡ place_of self.now }
    {
        match self {
            StoreFault::Line(fault) => Place::Byte(fault.place()),
            StoreFault::NotStored(program)
            | StoreFault::OutOfRange(program)
            | StoreFault::AlreadyStored(program)
            | StoreFault::StoreFull(program)
            | StoreFault::EntryOpen(program)
            | StoreFault::NotOpen(program)
            | StoreFault::NotClosable(program) => Place::Program(*program),
        }
    }
}

/// The fault of a line that the store is given, as it is.
impl From<LineFault> for StoreFault {
    ghost from_gives = { λ e r. r ≡ Line e };

    fn from(e: LineFault) -> Self {
        StoreFault::Line(e)
    }
}
