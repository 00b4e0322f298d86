ghost use Rattle.std.specs.Prelude.{◌≡◌};
ghost use Rattle.drives.specs.Laws.{layer_of, both, NoPlay};
ghost use Rattle.drives.specs.TakeUp.{Laid};

use crate::direction::Direction;
use crate::drive::Drive;
use crate::fault::DriveFault;
use crate::take_up::{Counts, LayerRefused, TakeUp};

impl<D: Drive> TakeUp<D> {
    /// A layer with its flank forward. It is made only where the count below is at
    /// least the play above its least; else the drive is handed back.
    pub fn new(below: D, play: u16) -> Result<TakeUp<D>, LayerRefused<D>>
        ensures { Laid D.Drive.meaning below play result }
    {
        if below.least() + i64::from(play) > below.count() {
            return Err(LayerRefused {
                below,
                fault: DriveFault::NotMade,
            });
        }
        Ok(TakeUp {
            below,
            play,
            flank: Direction::Forward,
        })
    }

    /// The drive below.
    pub fn below(&self) -> &D
        ensures { result.now ≡ self.now.below }
    {
        &self.below
    }

    /// The counts of the layer and of the drive below.
    pub fn counts(&self) -> Counts
        ensures value { result ≡ both (layer_of D.Drive.meaning self.now) }
        ensures unplayed { NoPlay }
    {
        Counts {
            layer: self.count(),
            below: self.below.count(),
        }
    }

    /// The play that is taken up, in pulses.
    pub fn play(&self) -> u16
        ensures { result ≡ self.now.play }
    {
        self.play
    }

    /// The flank on which the screw bears: that of the last pulse accepted, forward before the first.
    pub fn flank(&self) -> Direction
        ensures { result ≡ self.now.flank }
    {
        self.flank
    }
}
