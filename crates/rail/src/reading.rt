ghost use Rattle.std.specs.Prelude.{◌≡◌};
ghost use Rattle.reader.specs.Questions.{verdict};

use reader::{Block, LineFault, read_line};
use std::fmt;
use units::Measure;

/// How the reader reads a line in a program without blocks.
#[derive(Clone, Copy)]
pub struct Reading(Result<Option<Block>, LineFault>);

impl Reading {
    pub fn of(text: &[u8], measure: Measure) -> Reading
        ensures { result.0 ≡ verdict measure 0 text.now }
    {
        Reading(read_line(text, measure, 0))
    }

    pub fn in_words(&self) -> &'static str {
        match self.0 {
            Ok(Some(_)) => "the line is a block",
            Ok(None) => "the line is passed over",
            Err(LineFault::TooLong) => "the line has more than 80 bytes",
            Err(LineFault::ProgramFull) => "the program has 64 blocks already",
            Err(LineFault::Form { .. }) => "what starts there is no well formed word or remark",
            Err(LineFault::Order { .. }) =>
                "the word there is out of order, or the second of its letter or group",
            Err(LineFault::Range { .. }) =>
                "the number there is out of range, or the G is not known",
        }
    }
}

impl fmt::Display for Reading {
    fn fmt<W: fmt::Write>(&self, f: &mut fmt::Formatter<W>) -> fmt::Result {
        match &self.0 {
            Ok(Some(block)) => write_block(block, f),
            Ok(None) => f.write_str("passed over"),
            Err(fault) => {
                let number = fault.number();
                let place = fault.place();
                write!(f, "fault {number} line byte {place}")
            }
        }
    }
}

// G words come in the order motion, offset, way; a `-` stands for what is absent.
fn write_block<W: fmt::Write>(block: &Block, f: &mut fmt::Formatter<W>) -> fmt::Result {
    write_or_dash("block n", block.number, f)?;
    write_choices(block, f)?;
    write_or_dash(" x", block.target, f)?;
    write_or_dash(" f", block.feed, f)?;
    match block.auxiliary {
        Some(m) => write!(f, " m {m:02}"),
        None => f.write_str(" m -"),
    }
}

fn write_or_dash<T: fmt::Display + Drop, W: fmt::Write>(
    letter: &str,
    value: Option<T>,
    f: &mut fmt::Formatter<W>,
) -> fmt::Result {
    f.write_str(letter)?;
    match value {
        Some(value) => write!(f, " {value}"),
        None => f.write_str(" -"),
    }
}

fn write_choices<W: fmt::Write>(block: &Block, f: &mut fmt::Formatter<W>) -> fmt::Result {
    let codes = [
        block.motion.map(u8::from),
        block.offset.map(u8::from),
        block.way.map(u8::from),
    ];
    if codes == [None, None, None] {
        return f.write_str(" g -");
    }
    f.write_str(" g")?;
    for code in codes.iter().flatten() {
        write!(f, " {code:02}")?;
    }
    Ok(())
}
