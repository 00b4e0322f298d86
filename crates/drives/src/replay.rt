ghost use Rattle.std.specs.Prelude.{◌≡◌};
ghost use Rattle.drives.specs.Laws.{acted, replayed, EndsStay};

use crate::direction::Direction;
use crate::drive::Drive;

/// Something that is asked of a drive.
#[derive(Clone, Copy, PartialEq, Eq, Debug)]
pub enum Act {
    Pulse(Direction),
    Level(bool),
}

// A refused pulse is let go: it changes nothing, and the next act follows.
fn perform<D: Drive>(drive: &mut D, act: Act)
    ensures after { D.Drive.meaning drive.new ≡ acted act (D.Drive.meaning drive.old) }
{
    match act {
        Act::Pulse(direction) => {
            let _ = drive.pulse(direction);
        }
        Act::Level(ready) => drive.level(ready),
    }
}

/// Asks all of these of a drive, one after the other. Whatever the acts, the
/// drive's ends stay.
pub fn replay<D: Drive>(drive: &mut D, acts: &[Act])
    ensures after { D.Drive.meaning drive.new ≡ replayed acts.now (D.Drive.meaning drive.old) }
    ensures ends { EndsStay }
{
    for act in acts {
        perform(drive, *act);
    }
}
