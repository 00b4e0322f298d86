ghost use Rattle.std.specs.Prelude.{◌≡◌, true};
ghost use Rattle.drives.specs.Play.{fits};

use crate::direction::Direction;
use crate::drive::Drive;
use crate::fault::DriveFault;

pub mod drive;
pub mod made;

/// What a layer and the drive below it count: a carriage and its screw.
#[derive(Clone, Copy, PartialEq, Eq, Debug)]
pub struct Counts {
    pub layer: i64,
    pub below: i64,
}

/// A layer over any drive that takes up the play of its screw: where a pulse
/// turns the flank, the play is sent below first.
#[derive(Debug, Drop)]
pub struct TakeUp<D: Drive> {
    below: D,
    play: u16,
    flank: Direction,
    ghost room_for_play: { fits play flank (D.Drive.meaning below) ≡ true },
}

/// Why a layer was not made, and the drive that was to be below it.
#[derive(Debug, Drop)]
pub struct LayerRefused<D> {
    pub below: D,
    pub fault: DriveFault,
}

impl<D: Drop> From<LayerRefused<D>> for DriveFault {
    ghost from_gives = { λ refused fault. fault ≡ refused.fault };

    fn from(refused: LayerRefused<D>) -> DriveFault {
        refused.fault
    }
}
