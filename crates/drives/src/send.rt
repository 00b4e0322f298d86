ghost use Rattle.std.specs.Prelude.{◌≡◌};
ghost use Rattle.drives.specs.Meaning.{at};
ghost use Rattle.drives.specs.Sending.{sent, told, reached};

use crate::direction::Direction;
use crate::drive::Drive;
use crate::fault::Refusal;

// Sends so many pulses, and stops at the first that is refused.
#[inline(always)]
fn repeat<D: Drive>(drive: &mut D, direction: Direction, pulses: u64) -> Result<(), Refusal>
    ensures value { result ≡ told direction pulses (D.Drive.meaning drive.old) }
    ensures after { D.Drive.meaning drive.new ≡ sent direction pulses (D.Drive.meaning drive.old) }
    ensures reach { D.Drive.meaning drive.new ≡ at (reached direction pulses (D.Drive.meaning drive.old)) (D.Drive.meaning drive.old) }
{
    for _i in 0..pulses {
        drive.pulse(direction)?;
    }
    Ok(())
}

/// Sends so many pulses, and stops at the first that is refused.
// One call for each way, so that the way is known inside the loop.
pub fn send<D: Drive>(drive: &mut D, direction: Direction, pulses: u64) -> Result<(), Refusal>
    ensures value { result ≡ told direction pulses (D.Drive.meaning drive.old) }
    ensures after { D.Drive.meaning drive.new ≡ sent direction pulses (D.Drive.meaning drive.old) }
    ensures reach { D.Drive.meaning drive.new ≡ at (reached direction pulses (D.Drive.meaning drive.old)) (D.Drive.meaning drive.old) }
{
    match direction {
        Direction::Forward => repeat(drive, Direction::Forward, pulses),
        Direction::Backward => repeat(drive, Direction::Backward, pulses),
    }
}
