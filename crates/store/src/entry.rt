ghost use Rattle.std.specs.Prelude.{◌≡◌};
ghost use Rattle.store.specs.Entry.{back};
ghost use Rattle.store.specs.Faults.{refusal_fault};
ghost use Rattle.store.specs.declared.entry.CloseRefusal.TheVariants.{NotThisOne, Ended};

use crate::fault::StoreFault;

/// The token of an open entry. It holds the program's number and is spent only
/// by closing or abandoning: it cannot be copied or let go.
#[must_use]
#[derive(Debug)]
pub struct Entry {
    // Only an opening makes a token.
    pub(crate) number: u8,
}

impl Entry {
    /// The number of the program that is entered.
    pub fn number(&self) -> u8
        ensures { result ≡ self.now.number }
    {
        self.number
    }

    // The end of a token whose entry is over.
    pub(crate) fn spend(self) {
        let Entry { number: _ } = self;
    }

    // The refusal of a call whose token is not that of the open entry.
    pub(crate) fn handed_back(self) -> HandedBack
        ensures { result ≡ back self }
    {
        let fault = StoreFault::NotOpen(self.number);
        HandedBack { entry: self, fault }
    }
}

/// A token whose entry is not the open one, given back to the host.
#[derive(Debug)]
pub struct HandedBack {
    pub entry: Entry,
    pub fault: StoreFault,
}

/// A closing that is refused.
#[derive(Debug)]
pub enum CloseRefusal {
    /// The entry is not the open one.
    NotThisOne(HandedBack),
    /// The entry is over and its lines are gone.
    Ended(StoreFault),
}

impl CloseRefusal {
    /// Why the closing is refused: 30 or 35.
    pub fn fault(&self) -> StoreFault
        ensures { result ≡ refusal_fault self.now }
    {
        match self {
            CloseRefusal::NotThisOne(back) => back.fault,
            CloseRefusal::Ended(fault) => *fault,
        }
    }
}

impl From<HandedBack> for CloseRefusal {
    ghost from_gives = { λ back refusal. refusal ≡ NotThisOne back };

    fn from(back: HandedBack) -> Self {
        CloseRefusal::NotThisOne(back)
    }
}

impl From<StoreFault> for CloseRefusal {
    ghost from_gives = { λ fault refusal. refusal ≡ Ended fault };

    fn from(fault: StoreFault) -> Self {
        CloseRefusal::Ended(fault)
    }
}
