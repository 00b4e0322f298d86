#![tactic(auto)]

ghost use Rattle.std.specs.Prelude.{◌≡◌};
ghost use Rattle.reader.specs.Lines.{left};
ghost use Rattle.reader.specs.Questions.{judged, verdict};
ghost use Rattle.reader.specs.Answers.{OneAnswer, WithinLimits, ValuesSaid, CodesRead};

pub mod block;
pub mod fault;
mod number;
mod part;
mod rest;
mod summary;
mod values;

pub use block::{Block, Motion, OffsetChoice, Way, ends_program};
pub use fault::LineFault;
use rest::{MOST_BYTES, Rest};
use summary::Summary;
use units::Measure;

/// The most blocks of a program.
pub const MOST_BLOCKS: usize = 64;

/// What a line of bytes says, for a program that has `blocks` blocks already:
/// a block, nothing where the line is passed over, or the first question that it fails.
pub fn read_line(line: &[u8], measure: Measure, blocks: usize) -> Result<Option<Block>, LineFault>
    ensures value { result ≡ verdict measure blocks line.now }
    ensures answer { OneAnswer measure blocks line.now result }
    ensures limits { WithinLimits blocks line.now result }
    ensures said { ValuesSaid measure }
    ensures codes { CodesRead }
{
    judge(line, measure, blocks)
}

// The questions in their order; the limits come before the per cent sign.
fn judge(line: &[u8], measure: Measure, blocks: usize) -> Result<Option<Block>, LineFault>
    ensures { result ≡ verdict measure blocks line.now }
{
    if line.len() > MOST_BYTES {
        return Err(LineFault::TooLong);
    }
    if blocks >= MOST_BLOCKS {
        return Err(LineFault::ProgramFull);
    }
    match line {
        [b'%', ..] if blocks == 0 => Ok(None),
        _ => read_words(Rest::of(line, measure)),
    }
}

// A fault of form anywhere in the line is answered before one of order, and that before one of range: so the
// other two are kept until the line has been read.
fn read_words(line: Rest) -> Result<Option<Block>, LineFault>
    ensures { result ≡ judged line.entry.measure (left line.entry) }
{
    let mut rest = line;
    let mut words = Summary::default();
    while let Some(begun) = rest.next_part() {
        let (part, after) = begun?;
        words.add(part, line.measure);
        rest = after;
    }
    Ok(words.answer()?)
}
