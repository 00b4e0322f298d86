ghost use Rattle.std.specs.Prelude.{◌≡◌};
ghost use Rattle.drives.specs.Meaning.{Meaning, Sound, room, answered, pulsed, levelled};

use crate::direction::Direction;
use crate::fault::Refusal;

/// What takes the pulses of one axis, of whatever build.
///
/// The ghost member says what a drive means; every method is promised by it,
/// for every value of the type, so that nothing has to be asked first.
pub trait Drive {
    ghost meaning: { Self → Meaning };

    /// One pulse: refused as not ready, else as ended where the new count would
    /// pass an end. A refusal changes nothing.
    fn pulse(&mut self, direction: Direction) -> Result<(), Refusal>
        ensures value { result ≡ answered direction (meaning self.old) }
        ensures after { meaning self.new ≡ pulsed direction (meaning self.old) };

    /// Makes the drive ready or not, and changes nothing else.
    fn level(&mut self, ready: bool)
        ensures after { meaning self.new ≡ levelled ready (meaning self.old) };

    fn count(&self) -> i64
        ensures { result ≡ (meaning self.now).count };

    fn least(&self) -> i64
        ensures { result ≡ (meaning self.now).least };

    fn greatest(&self) -> i64
        ensures { result ≡ (meaning self.now).greatest };

    fn ready(&self) -> bool
        ensures { result ≡ (meaning self.now).ready };

    /// Whether one pulse more stays within the ends.
    fn has_room(&self, direction: Direction) -> bool
        ensures { result ≡ room direction (meaning self.now) }
    {
        match direction {
            Direction::Forward => self.count() < self.greatest(),
            Direction::Backward => self.least() < self.count(),
        }
    }

    /// What one pulse would be answered; nothing is sent.
    fn check_pulse(&self, direction: Direction) -> Result<(), Refusal>
        ensures { result ≡ answered direction (meaning self.now) }
    {
        if !self.ready() {
            return Err(Refusal::NotReady);
        }
        if !self.has_room(direction) {
            return Err(Refusal::Ended);
        }
        Ok(())
    }

    ghost sound: { (d : Self) → Sound (meaning d) };
}
