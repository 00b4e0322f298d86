ghost use Rattle.std.specs.Prelude.{◌≡◌};
ghost use Rattle.drives.specs.Meaning.{answered, pulsed, levelled, turned};
ghost use Rattle.drives.specs.Stage.{stage_of};
ghost use Rattle.std.proofs.Common.{rules, arith};

use crate::clock_stage::{ClockStage, FARTHEST};
use crate::direction::Direction;
use crate::drive::Drive;
use crate::fault::Refusal;

impl Drive for ClockStage {
    ghost meaning = { stage_of };

    ghost sound = { first_of (Prim.search rules, Prim.grind (arith, Self.row.coded.inj)) };

    fn pulse(&mut self, direction: Direction) -> Result<(), Refusal>
        ensures value { result ≡ answered direction (stage_of self.old) }
        ensures after { stage_of self.new ≡ pulsed direction (stage_of self.old) }
        ensures direction { self.new.direction ≡ turned result direction self.old.direction }
    {
        self.check_pulse(direction)?;
        self.direction = direction;
        match direction {
            Direction::Forward => self.count += 1,
            Direction::Backward => self.count -= 1,
        }
        Ok(())
    }

    fn level(&mut self, ready: bool)
        ensures after { stage_of self.new ≡ levelled ready (stage_of self.old) }
        ensures direction { self.new.direction ≡ self.old.direction }
    {
        self.ready = ready;
    }

    fn count(&self) -> i64 {
        self.count
    }

    fn least(&self) -> i64 {
        -FARTHEST
    }

    fn greatest(&self) -> i64 {
        FARTHEST
    }

    fn ready(&self) -> bool {
        self.ready
    }
}
