ghost use Rattle.std.specs.Prelude.{◌≡◌};
ghost use Rattle.module.specs.Machine.{named};

use crate::fault::Fault;
use axis::Levels;
use motion::RawData;
use orders::names_program;
use states::{Observation, Order};
use units::Measure;

/// What is asked of one axis.
#[derive(Clone, Copy)]
pub enum Act {
    Enter(RawData),
    Delete,
    Order(Order),
    Level(Levels),
    Tick,
    Observe,
}

impl Act {
    // The program that the act names, 0 for none.
    pub(crate) fn program(&self) -> u8
        ensures { result ≡ named self.now }
    {
        match self {
            Act::Order(order) if names_program(*order) => order.byte,
            _ => 0,
        }
    }
}

/// A call of the cable, any values. An axis, and a program or its entry, are named by numbers.
#[derive(Clone, Copy)]
pub enum Call<'a> {
    OnAxis { axis: u8, act: Act },
    Open { number: u8, measure: Measure },
    Add { number: u8, line: &'a [u8] },
    Close { number: u8 },
    Abandon { number: u8 },
    DeleteProgram { number: u8 },
}

/// What a call that is not refused answers.
#[derive(Clone, Copy, PartialEq, Eq, Debug)]
pub enum Answer {
    Done,
    Shown(Observation<Fault>),
}
