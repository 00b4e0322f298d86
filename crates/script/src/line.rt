use crate::build::Build;
use crate::mistake::{Field, Mistake, MistakeAt};
use crate::words::Words;
use axis::Levels;
use module::{Act, Call};
use motion::RawData;
use states::{Command, Order, Switches};
use units::Measure;

/// One line of a script that says something.
#[derive(Clone, Copy)]
pub enum Line<'a> {
    Drive { axis: u8, build: Build },
    Call(Call<'a>),
    /// Up to so many ticks.
    Ticks { axis: u8, count: u32 },
    /// A program line for the reader alone, in a program without blocks.
    Read { measure: Measure, text: &'a [u8] },
}

/// Reads a line of the script, its end left off: none where it is empty or a remark.
pub fn read_line<'a>(line: &'a [u8]) -> Result<Option<Line<'a>>, Mistake> {
    if line.is_empty() || line.starts_with(b"#") {
        return Ok(None);
    }
    let mut words = Words::new(line);
    let read = match words.next().unwrap_or(&[]) {
        b"drive" => read_drive(&mut words)?,
        b"tick" => read_ticks(&mut words)?,
        b"read" => read_alone(&mut words)?,
        name => Line::Call(read_call(name, &mut words)?),
    };
    words.end()?;
    Ok(Some(read))
}

/// Reads the line of this index.
pub fn read_at<'a>(line: &'a [u8], index: usize) -> Result<Option<Line<'a>>, MistakeAt> {
    read_line(line).map_err(|mistake| mistake.at(index))
}

fn read_call<'a>(name: &[u8], words: &mut Words<'a>) -> Result<Call<'a>, Mistake> {
    match name {
        b"data" => Ok(on_axis(words.number(Field::Axis)?, read_data(words)?)),
        b"nodata" => Ok(on_axis(words.number(Field::Axis)?, Act::Delete)),
        b"order" => Ok(on_axis(words.number(Field::Axis)?, read_order(words)?)),
        b"levels" => Ok(on_axis(words.number(Field::Axis)?, read_levels(words)?)),
        b"observe" => Ok(on_axis(words.number(Field::Axis)?, Act::Observe)),
        _ => read_program_call(name, words),
    }
}

fn on_axis<'a>(axis: u8, act: Act) -> Call<'a> {
    Call::OnAxis { axis, act }
}

fn read_program_call<'a>(name: &[u8], words: &mut Words<'a>) -> Result<Call<'a>, Mistake> {
    match name {
        b"open" => Ok(Call::Open {
            number: words.number(Field::Number)?,
            measure: read_measure(words)?,
        }),
        b"add" => Ok(Call::Add {
            number: words.number(Field::Number)?,
            line: words.take_text(),
        }),
        b"close" => Ok(Call::Close {
            number: words.number(Field::Number)?,
        }),
        b"abandon" => Ok(Call::Abandon {
            number: words.number(Field::Number)?,
        }),
        b"delete" => Ok(Call::DeleteProgram {
            number: words.number(Field::Number)?,
        }),
        _ => Err(Mistake::UnknownCall),
    }
}

fn read_drive<'a>(words: &mut Words) -> Result<Line<'a>, Mistake> {
    let axis = words.number(Field::Axis)?;
    let build = read_build(words)?;
    Ok(Line::Drive { axis, build })
}

fn read_build(words: &mut Words) -> Result<Build, Mistake> {
    let Some(outer) = read_layer(words)? else {
        let count = words.number(Field::StageCount)?;
        return Ok(Build::Clock { count });
    };
    let Some(inner) = read_layer(words)? else {
        let count = words.number(Field::StageCount)?;
        return Ok(Build::TakeUp { play: outer, count });
    };
    if read_layer(words)?.is_some() {
        return Err(Mistake::TooManyLayers);
    }
    let count = words.number(Field::StageCount)?;
    Ok(Build::TakeUpTwice {
        outer,
        inner,
        count,
    })
}

// The play of a layer, or none where the clock stage comes.
fn read_layer(words: &mut Words) -> Result<Option<u16>, Mistake> {
    match words.word(Field::Stage)? {
        b"clock" => Ok(None),
        b"takeup" => Ok(Some(words.number(Field::Play)?)),
        _ => Err(Mistake::Expected(Field::Stage)),
    }
}

// The data are read in the order of their keys on the line.
fn read_data(words: &mut Words) -> Result<Act, Mistake> {
    Ok(Act::Enter(RawData {
        measure: measure_in(words.value("measure")?)?,
        fm: words.datum("fm")?,
        fs: words.datum("fs")?,
        increase: words.datum("a")?,
        duration: words.datum("duration")?,
        patterns: words.datum("patterns")?,
        units: words.datum("W")?,
        pulses: words.datum("P")?,
        low: words.datum("low")?,
        high: words.datum("high")?,
        reference: words.datum("reference")?,
        offsets: [
            words.datum("o1")?,
            words.datum("o2")?,
            words.datum("o3")?,
            words.datum("o4")?,
        ],
    }))
}

fn read_order(words: &mut Words) -> Result<Act, Mistake> {
    Ok(Act::Order(Order {
        mode: words.number(Field::Mode)?,
        command: read_command(words)?,
        byte: words.number(Field::Byte)?,
        word: words.number(Field::Word)?,
        double: words.number(Field::DoubleWord)?,
    }))
}

fn read_command(words: &mut Words) -> Result<Command, Mistake> {
    match words.word(Field::Command)? {
        b"start" => Ok(Command::Start),
        b"stop" => Ok(Command::Stop),
        b"forward" => Ok(Command::Forward),
        b"backward" => Ok(Command::Backward),
        b"take-over" => Ok(Command::TakeOver),
        _ => Err(Mistake::Expected(Field::Command)),
    }
}

fn read_levels(words: &mut Words) -> Result<Act, Mistake> {
    let switches = Switches {
        begin: words.flag(Field::Begin)?,
        end: words.flag(Field::End)?,
    };
    let ready = words.flag(Field::Ready)?;
    Ok(Act::Level(Levels { switches, ready }))
}

fn read_ticks<'a>(words: &mut Words<'a>) -> Result<Line<'a>, Mistake> {
    let axis = words.number(Field::Axis)?;
    match words.end() {
        Ok(()) => Ok(Line::Call(on_axis(axis, Act::Tick))),
        Err(_) => Ok(Line::Ticks {
            axis,
            count: words.number(Field::Ticks)?,
        }),
    }
}

fn read_alone<'a>(words: &mut Words<'a>) -> Result<Line<'a>, Mistake> {
    Ok(Line::Read {
        measure: read_measure(words)?,
        text: words.take_text(),
    })
}

fn read_measure(words: &mut Words) -> Result<Measure, Mistake> {
    measure_in(words.word(Field::Measure)?)
}

fn measure_in(word: &[u8]) -> Result<Measure, Mistake> {
    match word {
        b"mm" => Ok(Measure::Millimetre),
        b"inch" => Ok(Measure::Inch),
        b"degree" => Ok(Measure::Degree),
        _ => Err(Mistake::Expected(Field::Measure)),
    }
}
