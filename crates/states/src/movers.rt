ghost use Rattle.std.specs.Prelude.{◌≡◌};
ghost use Rattle.std.specs.Fn.{FnOnceReturnsAtMut};
ghost use Rattle.motion.specs.Travel.{passing};
ghost use Rattle.states.specs.View.{raw_in, going_in};
ghost use Rattle.states.specs.Movers.{Stepped};
ghost use Rattle.states.specs.Moves.{ticked_in, braked_in, begun_in};

use crate::aim::Aim;
use motion::{Mover, Passed};

// A step of the move in progress. Without machine data there is no move, and nothing changes.
fn step_in<F: FnOnce(&mut Mover) -> Passed>(machine: &mut Option<Mover>, step: F) -> Passed
    requires { F.IsAlwaysCallable step }
    ensures { Stepped (FnOnceReturnsAtMut F.FnOnce step) machine.old result machine.new }
{
    match machine {
        Some(mover) => step(mover),
        None => Passed::STANDING,
    }
}

/// A tick of the move in progress.
#[tactic(auto, unfolding(crate::specs::Moves::ticked_in))]
pub fn tick_in(machine: &mut Option<Mover>) -> Passed
    ensures same { raw_in machine.new ≡ raw_in machine.old }
    ensures after { going_in machine.new ≡ ticked_in (raw_in machine.old) (going_in machine.old) }
    ensures value { result ≡ passing (going_in machine.old) (ticked_in (raw_in machine.old) (going_in machine.old)) }
{
    step_in(machine, Mover::tick)
}

/// A braking tick of the move in progress.
#[tactic(auto, unfolding(crate::specs::Moves::braked_in))]
pub fn brake_in(machine: &mut Option<Mover>) -> Passed
    ensures same { raw_in machine.new ≡ raw_in machine.old }
    ensures after { going_in machine.new ≡ braked_in (raw_in machine.old) (going_in machine.old) }
    ensures value { result ≡ passing (going_in machine.old) (braked_in (raw_in machine.old) (going_in machine.old)) }
{
    step_in(machine, Mover::brake)
}

/// A new move.
#[tactic(auto, unfolding(crate::specs::Moves::begun_in))]
pub fn begin_in(machine: &mut Option<Mover>, aim: Aim)
    ensures same { raw_in machine.new ≡ raw_in machine.old }
    ensures after { going_in machine.new ≡ begun_in (raw_in machine.old) aim }
{
    if let Some(mover) = machine {
        mover.begin(aim.rate, aim.distance);
    }
}
