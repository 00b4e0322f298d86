ghost use Rattle.std.specs.Prelude.{◌≡◌, ◌&&◌, int_le};
ghost use Rattle.states.specs.Asking.{ready_verdict};

use drives::drive::Drive;
use drives::fault::DriveFault;
use std::marker::Model;

/// What a drive answers when it is asked. Contracts see what the drive means by it.
#[derive(Clone, Copy)]
pub struct Reading {
    pub count: i64,
    pub least: i64,
    pub greatest: i64,
    pub ready: bool,
}

impl Model for Reading {
    ghost use Rattle.std.specs.Prelude.{◌≤ℤ◌};
    ghost use Rattle.drives.specs.Meaning.{Meaning, lowest, highest};

    ghost Value = { Meaning };

    ghost view = { λ r. record { count = r.count; least = r.least; greatest = r.greatest; ready = r.ready } };

    ghost invariant = { λ r. (lowest ≤ℤ r.count) × (r.count ≤ℤ highest) };

    ghost inverse = { λ m. record { count = m.count; least = m.least; greatest = m.greatest; ready = m.ready } };
}

impl Reading {
    /// Asks a drive.
    pub fn of<D: Drive>(drive: &D) -> Reading
        ensures { result ≡ D.Drive.meaning drive.now }
    {
        Reading {
            count: drive.count(),
            least: drive.least(),
            greatest: drive.greatest(),
            ready: drive.ready(),
        }
    }

    // A count that lies between the drive's ends.
    pub(crate) fn spans(&self, count: i64) -> bool
        ensures { result ≡ (int_le self.now.least count && int_le count self.now.greatest) }
    {
        (self.least..=self.greatest).contains(&count)
    }

    /// 21, asked of a move before it begins.
    pub fn ask_ready(&self) -> Result<(), DriveFault>
        ensures { result ≡ ready_verdict self.now }
    {
        if self.ready {
            Ok(())
        } else {
            Err(DriveFault::NotReadyToMove)
        }
    }
}
