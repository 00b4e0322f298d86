use module::{Fault, Place};
use states::Layer;
use std::fmt;

/// A fault as `rail` prints it: its number, its layer and its place.
#[derive(Clone, Copy)]
pub struct Placed(pub Fault);

impl fmt::Display for Placed {
    fn fmt<W: fmt::Write>(&self, f: &mut fmt::Formatter<W>) -> fmt::Result {
        let number = self.0.number();
        let layer = name_of(self.0.layer());
        write!(f, "fault {number} {layer} ")?;
        match self.0.place() {
            Place::Byte(byte) => write!(f, "byte {byte}"),
            Place::At {
                axis,
                program,
                block,
            } => write!(f, "axis {axis} program {program} block {block}"),
        }
    }
}

fn name_of(layer: Layer) -> &'static str {
    match layer {
        Layer::Line => "line",
        Layer::Store => "store",
        Layer::Drive => "drive",
        Layer::Axis => "axis",
    }
}
