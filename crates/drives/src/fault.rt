ghost use Rattle.std.specs.Prelude.{◌≡◌};
ghost use Rattle.drives.specs.Faults.{drive_number};

/// Why a drive refuses a pulse. A refusal has no number of its own: whoever
/// sends the pulse decides what it means.
#[derive(Clone, Copy, PartialEq, Eq, Debug)]
pub enum Refusal {
    /// The drive is not ready.
    NotReady,
    /// The new count would pass an end.
    Ended,
}

/// The faults of the drive layer, each with the number under which it is reported.
#[derive(Clone, Copy, PartialEq, Eq, Debug)]
pub enum DriveFault {
    /// A drive cannot be made at this count.
    NotMade = 2,
    /// The drive is not ready when a move is to begin.
    NotReadyToMove = 21,
    /// The drive is not ready while a move is under way.
    NotReadyInMotion = 24,
}

impl DriveFault {
    /// The number under which the fault is reported.
    pub fn number(self) -> u8
        ensures { result ≡ drive_number self }
    {
        self as u8
    }
}
