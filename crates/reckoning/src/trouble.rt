use module::{Fault, Place};
use states::Layer;

/// A fault as the rules tell it: its number, its layer and its place.
#[derive(Clone, Copy, PartialEq, Eq, Debug)]
pub struct Trouble {
    pub number: u8,
    pub layer: Layer,
    pub place: Place,
}

impl Trouble {
    pub fn at(number: u8, axis: u8, program: u8, block: u8) -> Trouble {
        Trouble {
            number,
            layer: layer_of(number),
            place: Place::At {
                axis,
                program,
                block,
            },
        }
    }

    pub fn in_line(number: u8, byte: usize) -> Trouble {
        Trouble {
            number,
            layer: layer_of(number),
            place: Place::Byte(byte),
        }
    }

    /// A fault of a program call.
    pub fn of_program(number: u8, program: u8) -> Trouble {
        Trouble::at(number, 0, program, 0)
    }

    /// What the module tells of its fault.
    pub fn told(fault: Fault) -> Trouble {
        Trouble {
            number: fault.number(),
            layer: fault.layer(),
            place: fault.place(),
        }
    }
}

fn layer_of(number: u8) -> Layer {
    match number {
        31..=34 => Layer::Line,
        14 | 17 | 26..=30 | 35 | 36 => Layer::Store,
        2 | 21 | 24 => Layer::Drive,
        _ => Layer::Axis,
    }
}

/// The number of the first question that is answered "no".
pub fn require(questions: &[(bool, u8)]) -> Result<(), u8> {
    for (holds, number) in questions {
        if !*holds {
            return Err(*number);
        }
    }
    Ok(())
}
