ghost use Rattle.std.specs.Prelude.{◌≡◌};
ghost use Rattle.states.specs.Entry.{new_status};
ghost use Rattle.states.specs.View.{status_of};

use crate::working::Working;
use motion::Mover;

/// The two limit switches: whether each is active.
#[derive(Clone, Copy, PartialEq, Eq, Default, Debug)]
pub struct Switches {
    pub begin: bool,
    pub end: bool,
}

/// All that an axis keeps beside its drive.
#[derive(Drop)]
pub struct Record {
    pub switches: Switches,
    /// the machine data, with the numbers of the move in progress
    pub machine: Option<Mover>,
    pub work: Working,
}

impl Record {
    /// A new axis: both switches off, no machine data.
    pub fn new() -> Record
        ensures { status_of result ≡ new_status }
    {
        Record {
            switches: Switches::default(),
            machine: None,
            work: Working::new(),
        }
    }
}
