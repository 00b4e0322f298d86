ghost use Rattle.std.specs.Prelude.{◌≡◌};
ghost use Rattle.laws.specs.Acts.{new_axis};
ghost use Rattle.laws.specs.Blocks.{MNumber, TakeOver};
ghost use Rattle.laws.specs.Laws.{Invariant, NoPulseRefused, Stop, Braking, Shift};
ghost use Rattle.laws.specs.Reckoned.{Data, Zero, Reference, DriftBound, Limits};

use crate::Axis;
use drives::drive::Drive;
use states::{Reading, Record};

impl<D: Drive> Axis<D> {
    /// A new axis on a drive, which is switched off; its count stays. Whatever is then asked of it, and
    /// whatever is in store, the laws of every run hold.
    pub fn new(mut drive: D) -> Axis<D>
        ensures made { result ≡ new_axis (D.Drive.meaning drive) }
        ensures invariant { Invariant }
        ensures no_pulse_refused { NoPulseRefused }
        ensures stop { Stop }
        ensures braking { Braking }
        ensures shift { Shift }
        ensures machine_data { Data }
        ensures zero { Zero }
        ensures reference { Reference }
        ensures drift_bound { DriftBound }
        ensures limits { Limits }
        ensures m_number { MNumber }
        ensures take_over { TakeOver }
    {
        drive.level(false);
        Axis {
            drive,
            status: Record::new(),
        }
    }

    /// The drive, to be asked.
    pub fn drive(&self) -> &D
        ensures { D.Drive.meaning result.now ≡ self.now.drive }
    {
        &self.drive
    }

    /// Gives the drive back.
    pub fn into_drive(self) -> D
        ensures { D.Drive.meaning result ≡ self.drive }
    {
        let Axis { drive, status: _ } = self;
        drive
    }

    // What the drive answers now.
    pub(crate) fn reading(&self) -> Reading
        ensures { result ≡ self.now.drive }
    {
        Reading::of(&self.drive)
    }
}
