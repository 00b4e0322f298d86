use std::fmt;
use thiserror::Error;

/// A word that a line of the script must have.
#[derive(Clone, Copy, PartialEq, Eq, Debug)]
pub enum Field {
    Axis,
    Begin,
    End,
    Ready,
    Mode,
    Command,
    Byte,
    Word,
    DoubleWord,
    Ticks,
    /// A machine datum, by its key.
    Datum(&'static str),
    Play,
    StageCount,
    Stage,
    Measure,
    Number,
}

// The word, and the values that it may have.
impl fmt::Display for Field {
    fn fmt<W: fmt::Write>(&self, f: &mut fmt::Formatter<W>) -> fmt::Result {
        let words = match self {
            Field::Datum(key) => return write!(f, "{key}= and a value of its type"),
            Field::Axis => "AXIS, a number from 0 to 255",
            Field::Begin => "BEGIN, 0 or 1",
            Field::End => "END, 0 or 1",
            Field::Ready => "READY, 0 or 1",
            Field::Mode => "MODE, a number from 0 to 255",
            Field::Command => "COMMAND: start, stop, forward, backward or take-over",
            Field::Byte => "BYTE, a number from 0 to 255",
            Field::Word => "WORD, a number from 0 to 65535",
            Field::DoubleWord => "DOUBLEWORD, a signed number of 32 bits",
            Field::Ticks => "COUNT, a number from 0 to 4294967295",
            Field::Play => "PLAY, a number from 0 to 65535",
            Field::StageCount => "COUNT, a signed number of 64 bits",
            Field::Stage => "clock or takeup",
            Field::Measure => "MEASURE: mm, inch or degree",
            Field::Number => "NUMBER, a number from 0 to 255",
        };
        f.write_str(words)
    }
}

/// What is wrong with a line of the script.
#[derive(Clone, Copy, PartialEq, Eq, Debug, Error)]
pub enum Mistake {
    #[error("no call begins with this word")]
    UnknownCall,
    /// The line ends before this word.
    #[error("missing: {0}")]
    Missing(Field),
    /// The word here is not of this kind.
    #[error("expected: {0}")]
    Expected(Field),
    #[error("words after the end of the call")]
    TooManyWords,
    #[error("a drive belongs to axis 1, 2 or 3")]
    NoSuchAxis,
    #[error("a drive has at most two layers")]
    TooManyLayers,
    #[error("this axis has a drive already")]
    DriveTwice,
    #[error("a drive comes before the first call")]
    DriveAfterCall,
}

impl Mistake {
    /// The mistake of the line of this index; lines are counted from 1.
    pub fn at(self, index: usize) -> MistakeAt {
        MistakeAt {
            line: index.saturating_add(1),
            mistake: self,
        }
    }
}

/// A mistake, and which line has it.
#[derive(Clone, Copy, Debug, Error)]
#[error("script line {line}: {mistake}")]
pub struct MistakeAt {
    line: usize,
    mistake: Mistake,
}
