ghost use Rattle.std.specs.Prelude.{◌≡◌};
ghost use Rattle.reader.specs.Faults.{number_of, place_of, line_fault};

/// The first question that a line fails, with the byte where the first word or remark at fault starts.
#[derive(Clone, Copy, PartialEq, Eq, Debug)]
pub enum LineFault {
    /// more than 80 bytes
    TooLong,
    /// 64 blocks stand already
    ProgramFull,
    /// a letter that is not known, or a word or remark that is not well formed
    Form { at: usize },
    /// a word that may not stand after the words before it
    Order { at: usize },
    /// a number out of its range, or a G that is not known
    Range { at: usize },
}

impl LineFault {
    /// The number of the question: 31 to 34.
    pub fn number(&self) -> u8
        ensures { result ≡ number_of self.now }
    {
        match self {
            LineFault::TooLong | LineFault::ProgramFull => 31,
            LineFault::Form { .. } => 32,
            LineFault::Order { .. } => 33,
            LineFault::Range { .. } => 34,
        }
    }

    /// The byte in the line, from 0.
    pub fn place(&self) -> usize
        ensures { result ≡ place_of self.now }
    {
        match self {
            LineFault::TooLong | LineFault::ProgramFull => 0,
            LineFault::Form { at } | LineFault::Order { at } | LineFault::Range { at } => *at,
        }
    }
}

// The question that a word or remark fails.
#[derive(Clone, Copy)]
pub(crate) enum WordCause {
    Form,
    Order,
    Range,
}

// The fault of a word or remark: its cause, with the byte in the line at which it starts.
#[derive(Clone, Copy)]
pub(crate) struct WordFault {
    pub(crate) cause: WordCause,
    pub(crate) at: usize,
}

impl WordCause {
    // The fault of the word or remark that starts at a byte.
    pub(crate) fn at(self, at: usize) -> WordFault
        ensures { result ≡ record { cause = self; at = at } }
    {
        WordFault { cause: self, at }
    }
}

impl From<WordFault> for LineFault {
    ghost from_gives = { λ fault result. result ≡ line_fault fault.cause fault.at };

    fn from(WordFault { cause, at }: WordFault) -> LineFault {
        match cause {
            WordCause::Form => LineFault::Form { at },
            WordCause::Order => LineFault::Order { at },
            WordCause::Range => LineFault::Range { at },
        }
    }
}
