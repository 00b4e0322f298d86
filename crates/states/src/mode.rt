ghost use Rattle.std.specs.Prelude.{◌≡◌};
ghost use Rattle.std.specs.Result.{result_ok};
ghost use Rattle.states.specs.Mode.{mode_number, mode_of, ModesAgree};

/// What an axis is to do, as its last order has chosen.
#[derive(Clone, Copy, PartialEq, Eq, Debug)]
pub enum Mode {
    /// 1, 2: as far as it may
    Jog(Jog),
    /// 4: only sets the mode
    AxisOff,
    /// 5
    Reference,
    /// 6: to a target
    Position,
    /// 7: by a distance
    Relative,
    /// 8, 9
    Program(Pace),
    /// 12: sets the zero offset
    OffsetTo,
    /// 13: adds to it
    OffsetBy,
    /// 14
    ClearOffset,
    /// 15: sets the tool value
    ToolTo,
    /// 16
    ClearTool,
    /// 17
    ClearFault,
}

/// The two modes that jog alike.
#[derive(Clone, Copy, PartialEq, Eq, Debug)]
pub enum Jog {
    /// 1
    First,
    /// 2
    Second,
}

/// Whether a program holds after each of its moves.
#[derive(Clone, Copy, PartialEq, Eq, Debug)]
pub enum Pace {
    /// 8
    Continuous,
    /// 9
    SingleBlock,
}

/// A number that no mode has.
#[derive(Clone, Copy, PartialEq, Eq, Debug)]
pub struct UnknownMode;

impl From<Mode> for u8 {
    ghost from_gives = { λ mode number. number ≡ mode_number mode };

    fn from(mode: Mode) -> u8 {
        match mode {
            Mode::Jog(Jog::First) => 1,
            Mode::Jog(Jog::Second) => 2,
            Mode::AxisOff => 4,
            Mode::Reference => 5,
            Mode::Position => 6,
            Mode::Relative => 7,
            Mode::Program(Pace::Continuous) => 8,
            Mode::Program(Pace::SingleBlock) => 9,
            Mode::OffsetTo => 12,
            Mode::OffsetBy => 13,
            Mode::ClearOffset => 14,
            Mode::ToolTo => 15,
            Mode::ClearTool => 16,
            Mode::ClearFault => 17,
        }
    }
}

impl TryFrom<u8> for Mode {
    type Error = UnknownMode;

    ghost try_from_gives = { λ number mode. result_ok mode ≡ mode_of number };

    fn try_from(number: u8) -> Result<Mode, UnknownMode> {
        match number {
            1 => Ok(Mode::Jog(Jog::First)),
            2 => Ok(Mode::Jog(Jog::Second)),
            4 => Ok(Mode::AxisOff),
            5 => Ok(Mode::Reference),
            6 => Ok(Mode::Position),
            7 => Ok(Mode::Relative),
            8 => Ok(Mode::Program(Pace::Continuous)),
            9 => Ok(Mode::Program(Pace::SingleBlock)),
            12 => Ok(Mode::OffsetTo),
            13 => Ok(Mode::OffsetBy),
            14 => Ok(Mode::ClearOffset),
            15 => Ok(Mode::ToolTo),
            16 => Ok(Mode::ClearTool),
            17 => Ok(Mode::ClearFault),
            _ => Err(UnknownMode),
        }
    }
}

/// The mode of a number is the one that has this number.
pub fn mode_law()
    ensures { ModesAgree }
{}
