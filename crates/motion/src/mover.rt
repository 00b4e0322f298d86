ghost use Rattle.std.specs.Prelude.{◌≡◌, ◌-◌, ◌*◌, ◌^◌, ◌≤◌, ◌%◌};
ghost use Rattle.motion.specs.Data.{Valid};
ghost use Rattle.motion.specs.Ramp.{ramp_of};
ghost use Rattle.motion.specs.Travel.{way};

use crate::machine::MachineData;

// A place on the ramp: a step, with the sum over the steps up to it, so that no tick sums the ramp.
#[derive(Clone, Copy)]
pub(crate) struct Place {
    // 0 before the first step, where braking comes down to again
    pub(crate) step: u32,
    pub(crate) sum: u64,
}

impl Place {
    // Before the first step.
    pub(crate) const START: Place = Place { step: 0, sum: 0 };
}

/// Machine data with the numbers of a move in progress.
#[derive(Drop)]
pub struct Mover {
    pub(crate) machine: MachineData,
    // mHz
    pub(crate) rate: u32,
    // millionths of a pulse, of the whole move and left to run
    pub(crate) total: u128,
    pub(crate) left: u128,
    // millionths of the pulse that is begun, so that no tick divides the way so far
    pub(crate) begun: u32,
    // where the last tick was
    pub(crate) place: Place,
    ghost valid: { Valid machine },
    ghost slowest: { 1 ≤ rate },
    ghost fastest: { rate ≤ machine.fm },
    ghost steps: { place.step ≤ 4096 },
    ghost longest: { total ≤ 1000000 * 2 ^ 63 },
    ghost within: { left ≤ total },
    ghost part: { begun ≡ (total - left) % 1000000 },
    ghost summed: { place.sum ≡ way (ramp_of machine) rate place.step },
    // braking from here never runs more than is left
    ghost safe: { way (ramp_of machine) rate (place.step - 1) ≤ left },
}
