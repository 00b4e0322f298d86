ghost use Rattle.std.specs.Prelude.{◌≡◌};
ghost use Rattle.motion.specs.Faults.{number_of};

/// Why machine data are refused.
#[derive(Clone, Copy, PartialEq, Eq, Debug)]
pub enum DataFault {
    /// a datum is out of its range
    OutOfRange = 4,
    /// the data do not agree
    Disagree = 5,
}

impl DataFault {
    pub fn number(self) -> u8
        ensures { result ≡ number_of self }
    {
        self as u8
    }
}
