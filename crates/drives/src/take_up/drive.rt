ghost use Rattle.std.specs.Prelude.{◌≡◌};
ghost use Rattle.drives.specs.Meaning.{answered, pulsed, levelled, turned};
ghost use Rattle.drives.specs.Play.{beneath, passed};
ghost use Rattle.drives.specs.TakeUp.{layered};
ghost use Rattle.std.proofs.Common.{rules};

use crate::direction::Direction;
use crate::drive::Drive;
use crate::fault::Refusal;
use crate::send::send;
use crate::take_up::TakeUp;

impl<D: Drive> TakeUp<D> {
    // The pulses that one accepted pulse sends below: the play too where it turns the flank.
    fn passed(&self, direction: Direction) -> u64
        ensures { result ≡ passed self.now.play direction self.now.flank }
    {
        if direction == self.flank {
            1
        } else {
            u64::from(self.play) + 1
        }
    }
}

impl<D: Drive> Drive for TakeUp<D> {
    ghost meaning = { layered D.Drive.meaning };

    ghost sound = { Prim.search rules };

    fn pulse(&mut self, direction: Direction) -> Result<(), Refusal>
        ensures value { result ≡ answered direction (layered D.Drive.meaning self.old) }
        ensures after { layered D.Drive.meaning self.new ≡ pulsed direction (layered D.Drive.meaning self.old) }
        ensures below { D.Drive.meaning self.new.below ≡ beneath self.old.play direction self.old.flank (D.Drive.meaning self.old.below) }
        ensures flank { self.new.flank ≡ turned result direction self.old.flank }
        ensures play { self.new.play ≡ self.old.play }
    {
        self.check_pulse(direction)?;
        let pulses = self.passed(direction);
        self.flank = direction;
        send(&mut self.below, direction, pulses)
    }

    fn level(&mut self, ready: bool)
        ensures after { layered D.Drive.meaning self.new ≡ levelled ready (layered D.Drive.meaning self.old) }
        ensures below { D.Drive.meaning self.new.below ≡ levelled ready (D.Drive.meaning self.old.below) }
        ensures flank { self.new.flank ≡ self.old.flank }
        ensures play { self.new.play ≡ self.old.play }
    {
        self.below.level(ready);
    }

    fn count(&self) -> i64 {
        match self.flank {
            Direction::Forward => self.below.count(),
            Direction::Backward => self.below.count() + i64::from(self.play),
        }
    }

    fn least(&self) -> i64 {
        self.below.least() + i64::from(self.play)
    }

    fn greatest(&self) -> i64 {
        self.below.greatest()
    }

    fn ready(&self) -> bool {
        self.below.ready()
    }
}
