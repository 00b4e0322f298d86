ghost use Rattle.std.specs.Prelude.{◌≤ℤ◌};
ghost use Rattle.drives.specs.Meaning.{lowest, highest};

use crate::direction::Direction;

pub mod drive;
pub mod made;

/// The ends of a clock stage lie this far from 0 either way.
pub const FARTHEST: i64 = 1_000_000_000_000;

/// The stage at the bottom: it gives each pulse to the motor as a clock edge and
/// keeps the direction level beside it. Its ends are the widest.
#[derive(Debug, Drop)]
pub struct ClockStage {
    count: i64,
    direction: Direction,
    ready: bool,
    ghost low: { lowest ≤ℤ count },
    ghost high: { count ≤ℤ highest },
}
