use module::{Act, Call};
use std::fmt;

/// A call in words, for the account of a difference.
#[derive(Clone, Copy)]
pub struct Shown<'a>(pub &'a Call<'a>);

impl fmt::Display for Shown<'_> {
    fn fmt<W: fmt::Write>(&self, f: &mut fmt::Formatter<W>) -> fmt::Result {
        let (name, number) = match *self.0 {
            Call::OnAxis { axis, act } => {
                let act = ShownAct(act);
                return write!(f, "axis {axis} {act}");
            }
            Call::Add { number, line } => return write!(f, "add {number} {line:?}"),
            Call::Open { number, measure } => return write!(f, "open {number} {measure:?}"),
            Call::Close { number } => ("close", number),
            Call::Abandon { number } => ("abandon", number),
            Call::DeleteProgram { number } => ("delete program", number),
        };
        write!(f, "{name} {number}")
    }
}

#[derive(Clone, Copy)]
struct ShownAct(Act);

impl fmt::Display for ShownAct {
    fn fmt<W: fmt::Write>(&self, f: &mut fmt::Formatter<W>) -> fmt::Result {
        match self.0 {
            Act::Enter(raw) => {
                let steps = (raw.fm, raw.fs, raw.increase, raw.units, raw.pulses);
                let offsets = raw.offsets;
                let places = (raw.low, raw.high, raw.reference, offsets);
                let measure = raw.measure;
                write!(f, "data {measure:?} {steps:?} {places:?}")
            }
            Act::Delete => f.write_str("data deleted"),
            Act::Order(order) => write!(f, "{order:?}"),
            Act::Level(levels) => write!(f, "{levels:?}"),
            Act::Tick => f.write_str("tick"),
            Act::Observe => f.write_str("observe"),
        }
    }
}
