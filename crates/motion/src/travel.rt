ghost use Rattle.std.specs.Prelude.{◌≡◌, ◌+◌, ◌-◌, ◌%◌, ◌&&◌, nat_le};
ghost use Rattle.motion.specs.Ramp.{ramp_of};
ghost use Rattle.motion.specs.Travel.{gain, in_ramp, ticked, braked, begun, idle, passed_in, passing};
ghost use Rattle.motion.specs.RampPlace.{Summed, PlaceRuns, left_after, run_at};
ghost use Rattle.motion.specs.View.{mover_data, mover_ramp, going_of};

use crate::machine::MachineData;
use crate::mover::{Mover, Place};
use crate::passed::Passed;

impl MachineData {
    /// The frequency of a ramp step, from 1 on, in mHz. Past its end the ramp stays at its maximum.
    pub fn frequency(&self, step: u32) -> u32
        ensures { result ≡ ramp_of self.now step }
    {
        let index = step.saturating_sub(1) as usize;
        self.table.get(index).copied().unwrap_or(self.values.fm)
    }
}

impl Mover {
    // What a tick at a step runs, in millionths of a pulse.
    fn gain(&self, step: u32) -> u32
        ensures { result ≡ gain (mover_ramp self.now) self.now.rate step }
    {
        if step == 0 {
            return 0;
        }
        self.machine.frequency(step).min(self.rate)
    }

    // A step is not past the last one, the first at which the ramp reaches the rate.
    fn is_in_ramp(&self, step: u32) -> bool
        ensures { result ≡ in_ramp (mover_ramp self.now) self.now.rate step }
    {
        step <= 1 || self.machine.frequency(step - 1) < self.rate
    }

    // A place can be run: its step is at least 1, not past the last one, and the sum up to it is left.
    fn can_run(&self, place: Place) -> bool
        ensures { result ≡ (nat_le 1 place.step && (in_ramp (mover_ramp self.now) self.now.rate place.step && nat_le place.sum self.now.left)) }
    {
        1 <= place.step && self.is_in_ramp(place.step) && u128::from(place.sum) <= self.left
    }

    // The place one step up.
    #[tactic(auto, using(crate::proofs::Way::ways))]
    fn above(&self) -> Place
        ensures step { result.step ≡ self.now.place.step + 1 }
        ensures sum { Summed (mover_ramp self.now) self.now.rate result }
    {
        let step = self.place.step + 1;
        let sum = self.place.sum + u64::from(self.gain(step));
        Place { step, sum }
    }

    // The place one step down, that before the first step at the lowest.
    #[tactic(auto, using(crate::proofs::Way::ways))]
    fn below(&self) -> Place
        ensures step { result.step ≡ self.now.place.step - 1 }
        ensures sum { Summed (mover_ramp self.now) self.now.rate result }
    {
        let step = self.place.step.saturating_sub(1);
        let sum = self.place.sum - u64::from(self.gain(self.place.step));
        Place { step, sum }
    }

    // The place of the next tick, none where the move is complete.
    fn next_place(&self) -> Option<Place>
        ensures runs { PlaceRuns (mover_ramp self.now) (going_of self.now) result }
        ensures after { run_at (mover_ramp self.now) (going_of self.now) result ≡ ticked (mover_ramp self.now) (going_of self.now) }
    {
        let above = self.above();
        if self.can_run(above) {
            return Some(above);
        }
        if self.can_run(self.place) {
            return Some(self.place);
        }
        let below = self.below();
        self.can_run(below).then_some(below)
    }

    // What is left after a tick at a place; with none the move is complete.
    #[tactic(auto, using(crate::proofs::Way::ways))]
    fn left_after(&self, place: Option<Place>) -> u128
        requires { PlaceRuns (mover_ramp self.now) (going_of self.now) place }
        ensures { result ≡ left_after (mover_ramp self.now) (going_of self.now) place }
    {
        match place {
            Some(place) => self.left - u128::from(self.gain(place.step)),
            None => 0,
        }
    }

    // The pulses that are sent.
    fn passed(&self) -> u64
        ensures { result ≡ passed_in (going_of self.now) }
    {
        ((self.total - self.left) / 1_000_000) as u64
    }

    // The pulses that a tick at a place sends, and the millionths of the next that it begins.
    fn sent(&self, place: Option<Place>) -> (u64, u32)
        requires { PlaceRuns (mover_ramp self.now) (going_of self.now) place }
        ensures pulses { result.0 ≡ passed_in (run_at (mover_ramp self.now) (going_of self.now) place) - passed_in (going_of self.now) }
        ensures begun { result.1 ≡ (self.now.total - (run_at (mover_ramp self.now) (going_of self.now) place).left) % 1000000 }
    {
        match place {
            Some(place) => {
                let run = self.begun + self.gain(place.step);
                (u64::from(run / 1_000_000), run % 1_000_000)
            }
            None => {
                let all = (self.total / 1_000_000) as u64;
                (all - self.passed(), (self.total % 1_000_000) as u32)
            }
        }
    }

    // A tick at a place; with none the move is complete.
    fn run(&mut self, place: Option<Place>) -> Passed
        requires { PlaceRuns (mover_ramp self.old) (going_of self.old) place }
        ensures same { mover_data self.new ≡ mover_data self.old }
        ensures after { going_of self.new ≡ run_at (mover_ramp self.old) (going_of self.old) place }
        ensures value { result ≡ passing (going_of self.old) (going_of self.new) }
    {
        let (pulses, begun) = self.sent(place);
        self.left = self.left_after(place);
        self.begun = begun;
        self.place = place.unwrap_or(Place::START);
        Passed {
            pulses,
            ended: self.place.step == 0,
        }
    }

    pub fn machine(&self) -> &MachineData
        ensures { result.now ≡ mover_data self.now }
    {
        &self.machine
    }

    /// The ramp step of the last tick.
    pub fn step(&self) -> u32
        ensures { result ≡ (going_of self.now).step }
    {
        self.place.step
    }

    /// No move yet.
    #[tactic(auto, using(crate::proofs::Way::ways))]
    pub fn new(machine: MachineData) -> Mover
        ensures same { mover_data result ≡ machine }
        ensures none { going_of result ≡ idle }
    {
        Mover {
            machine,
            rate: 1,
            total: 0,
            left: 0,
            begun: 0,
            place: Place::START,
        }
    }

    /// A new move by a number of pulses. A rate outside 1 to the maximum frequency is held to it.
    #[tactic(auto, using(crate::proofs::Way::ways))]
    pub fn begin(&mut self, rate: u64, distance: i64)
        ensures same { mover_data self.new ≡ mover_data self.old }
        ensures after { going_of self.new ≡ begun (mover_data self.old).fm rate distance }
    {
        let fastest = u64::from(self.machine.values.fm);
        self.rate = rate.clamp(1, fastest) as u32;
        self.total = 1_000_000 * u128::from(distance.unsigned_abs());
        self.left = self.total;
        self.begun = 0;
        self.place = Place::START;
    }

    /// A tick of the move.
    pub fn tick(&mut self) -> Passed
        ensures same { mover_data self.new ≡ mover_data self.old }
        ensures after { going_of self.new ≡ ticked (mover_ramp self.old) (going_of self.old) }
        ensures value { result ≡ passing (going_of self.old) (ticked (mover_ramp self.old) (going_of self.old)) }
    {
        let place = self.next_place();
        self.run(place)
    }

    /// A braking tick: one step lower, and at step 0 the axis stands.
    pub fn brake(&mut self) -> Passed
        ensures same { mover_data self.new ≡ mover_data self.old }
        ensures after { going_of self.new ≡ braked (mover_ramp self.old) (going_of self.old) }
        ensures value { result ≡ passing (going_of self.old) (braked (mover_ramp self.old) (going_of self.old)) }
    {
        let place = self.below();
        self.run(Some(place))
    }
}
